//! Disks: bytes at places outside, and what a crash leaves of them.

ghost use Rattle.std.specs.Prelude.{◌≡◌, ◌+◌, ◌≤◌, ℕ, List, Option, Some, None, IfSome, length};
ghost use Rattle.ctl_io.specs.Faults.{count_after};
ghost use Rattle.ctl_io.specs.Disk.{did_fail, shown_with, AreAt, Torn, ShowsTorn};
ghost use Rattle.ctl_io.specs.DiskPast.{DiskPast, IsMadeBy, IsShownSo};
ghost use Rattle.ctl_io.specs.Crash.{Follows, LeavesNoMore, LeavesShown, Elapses};

/// What a call of a disk answers.
#[derive(Clone, Copy, Debug, PartialEq, Eq)]
pub enum Did {
    Done,
    /// The call failed, and counts as made in part.
    Failed,
}

/// So many bytes outside, which are read and written by their places. What was written since the last sync that was
/// done may be lost in a crash: each written range may then hold any bytes.
pub trait Disk {
    /// How many bytes it has.
    ghost size: { Self → ℕ };

    /// The bytes that a read gives, where the disk shows them.
    ghost contents: { Self → Option (List ℕ) };

    /// The contents that a crash at this moment may leave, where the disk shows its contents.
    ghost may_leave: { Self → List ℕ → Type 0 };

    /// The moment, as a number that doesn't fall.
    ghost moment: { Self → ℕ };

    /// The contents that a crash at some moment from that one on might have left, in a call or between two.
    ghost left_since: { Self → ℕ → List ℕ → Type 0 };

    /// The contents that a read at some moment from that one on might have given, between two calls: what is left where
    /// the program was stopped then, and the disk wasn't.
    ghost shown_since: { Self → ℕ → List ℕ → Type 0 };

    /// Its past, from which follows all of this but its size, where the disk shows it.
    ghost past: { Self → Option DiskPast };

    /// How often a call failed. Only the disk's own calls raise it.
    ghost faults: { Self → ℕ };

    /// The name of its file, where the disk shows it.
    ghost name: { Self → Option (List ℕ) } = { λ _. None };

    /// How many bytes it has.
    fn size(&self) -> u64
        ensures { result ≡ size self.now };

    /// Reads the bytes from the place `at` on. Where it fails, nothing is said of `into`.
    fn read(&mut self, at: u64, into: &mut [u8]) -> Did
        requires { at + length into.old ≤ size self.old }
        ensures bytes { result ≡ Did.Done → AreAt at into.new (contents self.old) }
        ensures contents { contents self.new ≡ contents self.old }
        ensures crash { LeavesNoMore (may_leave self.old) (may_leave self.new) }
        ensures time { Elapses (moment self.old) (moment self.new)
            (left_since self.old) (left_since self.new) (may_leave self.new) }
        ensures shown { Elapses (moment self.old) (moment self.new)
            (shown_since self.old) (shown_since self.new) (λ c. contents self.new ≡ Some c) }
        ensures size { size self.new ≡ size self.old }
        ensures name { name self.new ≡ name self.old }
        ensures count { faults self.new ≡ count_after (did_fail result) (faults self.old) };

    /// Writes the bytes over those from the place `at` on. Until a sync is done, a crash may leave any in their range;
    /// where it fails, a read may give any there too.
    fn write(&mut self, at: u64, bytes: &[u8]) -> Did
        requires { at + length bytes.now ≤ size self.old }
        ensures written { result ≡ Did.Done →
            contents self.new ≡ shown_with at bytes.now (contents self.old) }
        ensures others { ShowsTorn at (length bytes.now) (contents self.old) (contents self.new) }
        ensures crash { Follows (Torn at (length bytes.now))
            (may_leave self.old) (may_leave self.new) }
        ensures time { Elapses (moment self.old) (moment self.new)
            (left_since self.old) (left_since self.new) (may_leave self.new) }
        ensures shown { Elapses (moment self.old) (moment self.new)
            (shown_since self.old) (shown_since self.new) (λ c. contents self.new ≡ Some c) }
        ensures size { size self.new ≡ size self.old }
        ensures name { name self.new ≡ name self.old }
        ensures count { faults self.new ≡ count_after (did_fail result) (faults self.old) };

    /// Sees that what was written lasts: once this is done, a crash leaves what a read gives.
    fn sync(&mut self) -> Did
        ensures durable { result ≡ Did.Done →
            LeavesShown (contents self.old) (may_leave self.new) }
        ensures contents { contents self.new ≡ contents self.old }
        ensures crash { LeavesNoMore (may_leave self.old) (may_leave self.new) }
        ensures time { Elapses (moment self.old) (moment self.new)
            (left_since self.old) (left_since self.new) (may_leave self.new) }
        ensures shown { Elapses (moment self.old) (moment self.new)
            (shown_since self.old) (shown_since self.new) (λ c. contents self.new ≡ Some c) }
        ensures size { size self.new ≡ size self.old }
        ensures name { name self.new ≡ name self.old }
        ensures count { faults self.new ≡ count_after (did_fail result) (faults self.old) };

    /// What a read gives is among what a crash may leave.
    ghost shown_may_stay: { (disk : Self) → IfSome (contents disk) (may_leave disk) };

    /// There are as many bytes as it has.
    ghost as_many: { (disk : Self) → IfSome (contents disk) (λ all. length all ≡ size disk) };

    /// Where the disk shows its past, it is what that makes of it; where it doesn't, it shows no contents.
    ghost made: { (disk : Self) → IsMadeBy (past disk) (contents disk) (may_leave disk)
        (moment disk) (left_since disk) };

    /// So it is with what reads might have given.
    ghost made_shown: { (disk : Self) → IsShownSo (past disk) (shown_since disk) };

    /// This moment is one of those since an earlier one.
    ghost counts_now: { (disk : Self) (t : ℕ) (c : List ℕ) → t ≤ moment disk
        → may_leave disk c → left_since disk t c };

    /// Since this moment there is no other.
    ghost only_now: { (disk : Self) (c : List ℕ) → left_since disk (moment disk) c
        → may_leave disk c };

    /// What a read gives now is among what one might have given since an earlier moment.
    ghost shows_now: { (disk : Self) (t : ℕ) → t ≤ moment disk
        → IfSome (contents disk) (shown_since disk t) };

    /// And since this moment it is all.
    ghost shows_alone: { (disk : Self) (c : List ℕ) → shown_since disk (moment disk) c
        → contents disk ≡ Some c };

    /// What a read might have given, a crash might have left.
    ghost shown_left: { (disk : Self) (t : ℕ) (c : List ℕ) → shown_since disk t c
        → left_since disk t c };
}
