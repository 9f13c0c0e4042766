//! The steps of a save, each a write that lasts before the next one begins.

ghost use Rattle.std.specs.Prelude.{◌≡◌, ◌+◌, ◌<◌, ◌^◌, ◌≤◌, length, true, false, IfSome};
ghost use Rattle.ctl_io.specs.Crash.{LeavesOnly, LeavesShown};
ghost use Rattle.ctl_io.specs.Disk.{did_fail};
ghost use Rattle.ctl_io.specs.Faults.{count_after};
ghost use Rattle.state_store.specs.Slots.{store_size, in_slot};
ghost use Rattle.state_store.specs.Steps.{IsFrom, ShowsStep, Sets, SetsGate};
ghost use Rattle.state_store.specs.Steps.{KeepsSame, KeepsSameOr, KeepsSameOrThis};
ghost use Rattle.state_store.specs.Steps.{HasGate, IsSpare, IsLater, HoldsLater};

use crate::slot::Slot;
use crate::synced::write_synced;
use ctl_io::{Did, Disk};

const CLOSED: u8 = 0;

const OPEN: u8 = 1;

// Writes an entry into a slot that doesn't stand, which then stands.
pub(crate) fn replace<D: Disk>(disk: &mut D, slot: Slot, is_open: bool, entry: &[u8]) -> Did
    requires within { store_size (length entry.now) ≤ D.size disk.old }
    requires lasts { LeavesShown (D.contents disk.old) (D.may_leave disk.old) }
    requires spare { IfSome (D.contents disk.old) (IsSpare (length entry.now) slot) }
    requires gate { IfSome (D.contents disk.old) (HasGate (length entry.now) slot is_open) }
    requires later { IfSome (D.contents disk.old) (IsLater (length entry.now) slot entry.now) }
    ensures set { result ≡ Did.Done → ShowsStep (Sets (length entry.now) slot true entry.now)
        (D.contents disk.old) (D.contents disk.new) }
    ensures lasts { result ≡ Did.Done →
        LeavesShown (D.contents disk.new) (D.may_leave disk.new) }
    ensures any_moment { LeavesOnly D.moment D.left_since disk.old disk.new
        (IsFrom (KeepsSameOr (length entry.now) entry.now) (D.contents disk.old)) }
    ensures size { D.size disk.new ≡ D.size disk.old }
    ensures name { D.name disk.new ≡ D.name disk.old }
    ensures count { D.faults disk.new ≡ count_after (did_fail result) (D.faults disk.old) }
{
    let entry_len = entry.len() as u64;
    if let Did::Failed = close(disk, slot, entry_len, is_open) {
        return Did::Failed;
    }
    match fill(disk, slot, entry) {
        Did::Done => open(disk, slot, entry_len),
        Did::Failed => Did::Failed,
    }
}

// Closes the gate of a slot that doesn't stand. One that is closed isn't written: a crash could leave it open over a text
// that is torn.
fn close<D: Disk>(disk: &mut D, slot: Slot, entry_len: u64, is_open: bool) -> Did
    requires len { entry_len < 2 ^ 63 }
    requires within { store_size entry_len ≤ D.size disk.old }
    requires lasts { LeavesShown (D.contents disk.old) (D.may_leave disk.old) }
    requires spare { IfSome (D.contents disk.old) (IsSpare entry_len slot) }
    requires gate { IfSome (D.contents disk.old) (HasGate entry_len slot is_open) }
    ensures set { result ≡ Did.Done →
        ShowsStep (SetsGate entry_len slot false) (D.contents disk.old) (D.contents disk.new) }
    ensures lasts { result ≡ Did.Done →
        LeavesShown (D.contents disk.new) (D.may_leave disk.new) }
    ensures any_moment { LeavesOnly D.moment D.left_since disk.old disk.new
        (IsFrom (KeepsSame entry_len) (D.contents disk.old)) }
    ensures size { D.size disk.new ≡ D.size disk.old }
    ensures name { D.name disk.new ≡ D.name disk.old }
    ensures count { D.faults disk.new ≡ count_after (did_fail result) (D.faults disk.old) }
{
    if is_open {
        write_synced(disk, slot.gate(entry_len), &[CLOSED])
    } else {
        Did::Done
    }
}

// Writes an entry into a closed slot.
fn fill<D: Disk>(disk: &mut D, slot: Slot, entry: &[u8]) -> Did
    requires within { store_size (length entry.now) ≤ D.size disk.old }
    requires lasts { LeavesShown (D.contents disk.old) (D.may_leave disk.old) }
    requires gate { IfSome (D.contents disk.old) (HasGate (length entry.now) slot false) }
    ensures set { result ≡ Did.Done → ShowsStep (Sets (length entry.now) slot false entry.now)
        (D.contents disk.old) (D.contents disk.new) }
    ensures lasts { result ≡ Did.Done →
        LeavesShown (D.contents disk.new) (D.may_leave disk.new) }
    ensures any_moment { LeavesOnly D.moment D.left_since disk.old disk.new
        (IsFrom (KeepsSame (length entry.now)) (D.contents disk.old)) }
    ensures size { D.size disk.new ≡ D.size disk.old }
    ensures name { D.name disk.new ≡ D.name disk.old }
    ensures count { D.faults disk.new ≡ count_after (did_fail result) (D.faults disk.old) }
{
    write_synced(disk, slot.gate(entry.len() as u64) + 1, entry)
}

// Opens the gate of a closed slot, whose entry lasts.
fn open<D: Disk>(disk: &mut D, slot: Slot, entry_len: u64) -> Did
    requires len { entry_len < 2 ^ 63 }
    requires within { store_size entry_len ≤ D.size disk.old }
    requires lasts { LeavesShown (D.contents disk.old) (D.may_leave disk.old) }
    requires gate { IfSome (D.contents disk.old) (HasGate entry_len slot false) }
    requires later { IfSome (D.contents disk.old) (HoldsLater entry_len slot) }
    ensures set { result ≡ Did.Done →
        ShowsStep (SetsGate entry_len slot true) (D.contents disk.old) (D.contents disk.new) }
    ensures lasts { result ≡ Did.Done →
        LeavesShown (D.contents disk.new) (D.may_leave disk.new) }
    ensures any_moment { LeavesOnly D.moment D.left_since disk.old disk.new
        (IsFrom (KeepsSameOrThis entry_len slot) (D.contents disk.old)) }
    ensures size { D.size disk.new ≡ D.size disk.old }
    ensures name { D.name disk.new ≡ D.name disk.old }
    ensures count { D.faults disk.new ≡ count_after (did_fail result) (D.faults disk.old) }
{
    write_synced(disk, slot.gate(entry_len), &[OPEN])
}
