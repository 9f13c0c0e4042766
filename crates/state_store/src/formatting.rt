//! A disk made a store that keeps nothing yet.

ghost use Rattle.std.specs.Prelude.{◌≡◌, ◌<◌, ◌^◌, ◌≤◌, IfSome};
ghost use Rattle.ctl_io.specs.Crash.{LeavesOnly, LeavesShown};
ghost use Rattle.ctl_io.specs.Disk.{did_fail, ShowsTorn};
ghost use Rattle.ctl_io.specs.Faults.{count_after};
ghost use Rattle.state_store.specs.Slots.{store_size};
ghost use Rattle.state_store.specs.Steps.{ShowsStep, TearsGates, IsTornFrom, IsAtStart};

use crate::slot::Slot;
use ctl_io::{Did, Disk};

const CLOSED: u8 = 0;

/// Closes both gates of a store for entries of so many bytes, so that it keeps nothing yet, and sees that they last. It
/// writes no other byte.
pub fn format<D: Disk>(disk: &mut D, entry_len: u64) -> Did
    requires len { entry_len < 2 ^ 63 }
    requires within { store_size entry_len ≤ D.size disk.old }
    ensures start { result ≡ Did.Done → IfSome (D.contents disk.new) (IsAtStart entry_len) }
    ensures lasts { result ≡ Did.Done →
        LeavesShown (D.contents disk.new) (D.may_leave disk.new) }
    ensures others { result ≡ Did.Done →
        ShowsStep (TearsGates entry_len) (D.contents disk.old) (D.contents disk.new) }

    // A crash at any moment of the call leaves what it might have before, but for the gates.
    ensures any_moment { LeavesOnly D.moment D.left_since disk.old disk.new
        (IsTornFrom entry_len (D.may_leave disk.old)) }
    ensures size { D.size disk.new ≡ D.size disk.old }
    ensures name { D.name disk.new ≡ D.name disk.old }
    ensures count { D.faults disk.new ≡ count_after (did_fail result) (D.faults disk.old) }
{
    if let Did::Failed = disk.write(Slot::First.gate(entry_len), &[CLOSED]) {
        return Did::Failed;
    }
    match disk.write(Slot::Second.gate(entry_len), &[CLOSED]) {
        Did::Done => disk.sync(),
        Did::Failed => Did::Failed,
    }
}
