//! What is read of a store that is opened.

ghost use Rattle.std.specs.Prelude.{◌≡◌, ◌<◌, ◌^◌, ◌≤◌, length, IsSome, IfSome, is_none};
ghost use Rattle.ctl_io.specs.Crash.{LeavesNoMore, LeavesOnly, LeavesShown};
ghost use Rattle.ctl_io.specs.Disk.{did_fail};
ghost use Rattle.ctl_io.specs.Faults.{count_after};
ghost use Rattle.state_store.specs.Slots.{store_size};
ghost use Rattle.state_store.specs.Kept.{standing};
ghost use Rattle.state_store.specs.Reading.{leading_head, HasHead, HasHeads, HasRead};

use crate::heads::{Head, Heads};
use crate::slot::Slot;
use ctl_io::{Did, Disk};

const OPEN: u8 = 1;

// Reads the heads of both slots, and the entry of the slot that stands.
pub(crate) fn read_store<D: Disk>(disk: &mut D, entry: &mut [u8]) -> Option<Heads>
    requires number { 8 ≤ length entry.old }
    requires within { store_size (length entry.old) ≤ D.size disk.old }
    ensures heads { IfSome result (λ heads.
        IfSome (D.contents disk.old) (HasHeads (length entry.old) heads)) }
    ensures entry { IfSome result (λ heads.
        IfSome (D.contents disk.old) (HasRead (length entry.old) (standing heads) entry.new)) }
    ensures lasts { IsSome result → LeavesShown (D.contents disk.new) (D.may_leave disk.new) }
    ensures contents { D.contents disk.new ≡ D.contents disk.old }
    ensures crash { LeavesNoMore (D.may_leave disk.old) (D.may_leave disk.new) }
    ensures any_moment { LeavesOnly D.moment D.left_since disk.old disk.new
        (D.may_leave disk.old) }
    ensures size { D.size disk.new ≡ D.size disk.old }
    ensures name { D.name disk.new ≡ D.name disk.old }
    ensures count { D.faults disk.new ≡ count_after (is_none result) (D.faults disk.old) }
{
    let heads = read_heads(disk, entry.len() as u64)?;
    match read_entry(disk, &heads, entry) {
        Did::Done => Some(heads),
        Did::Failed => None,
    }
}

// Reads the heads of both slots. Before that it sees that what is read lasts: what a save wrote that failed may be pending.
fn read_heads<D: Disk>(disk: &mut D, entry_len: u64) -> Option<Heads>
    requires len { entry_len < 2 ^ 63 }
    requires number { 8 ≤ entry_len }
    requires within { store_size entry_len ≤ D.size disk.old }
    ensures heads { IfSome result (λ heads.
        IfSome (D.contents disk.old) (HasHeads entry_len heads)) }
    ensures lasts { IsSome result → LeavesShown (D.contents disk.new) (D.may_leave disk.new) }
    ensures contents { D.contents disk.new ≡ D.contents disk.old }
    ensures crash { LeavesNoMore (D.may_leave disk.old) (D.may_leave disk.new) }
    ensures any_moment { LeavesOnly D.moment D.left_since disk.old disk.new
        (D.may_leave disk.old) }
    ensures size { D.size disk.new ≡ D.size disk.old }
    ensures name { D.name disk.new ≡ D.name disk.old }
    ensures count { D.faults disk.new ≡ count_after (is_none result) (D.faults disk.old) }
{
    if let Did::Failed = disk.sync() {
        return None;
    }
    let first = read_head(disk, Slot::First, entry_len)?;
    let second = read_head(disk, Slot::Second, entry_len)?;
    Some(Heads { first, second })
}

// Reads the head of a slot.
fn read_head<D: Disk>(disk: &mut D, slot: Slot, entry_len: u64) -> Option<Head>
    requires len { entry_len < 2 ^ 63 }
    requires number { 8 ≤ entry_len }
    requires within { store_size entry_len ≤ D.size disk.old }
    ensures head { IfSome result (λ head.
        IfSome (D.contents disk.old) (HasHead entry_len slot head)) }
    ensures contents { D.contents disk.new ≡ D.contents disk.old }
    ensures crash { LeavesNoMore (D.may_leave disk.old) (D.may_leave disk.new) }
    ensures any_moment { LeavesOnly D.moment D.left_since disk.old disk.new
        (D.may_leave disk.old) }
    ensures size { D.size disk.new ≡ D.size disk.old }
    ensures name { D.name disk.new ≡ D.name disk.old }
    ensures count { D.faults disk.new ≡ count_after (is_none result) (D.faults disk.old) }
{
    let mut bytes = [0; 9];
    match disk.read(slot.gate(entry_len), &mut bytes) {
        Did::Done => Some(head_of(&bytes)),
        Did::Failed => None,
    }
}

// The head of a slot whose first bytes are these.
fn head_of(bytes: &[u8; 9]) -> Head
    ensures { result ≡ leading_head bytes.now }
{
    let [gate, n0, n1, n2, n3, n4, n5, n6, n7] = *bytes;
    Head {
        is_open: gate == OPEN,
        number: u64::from_le_bytes([n0, n1, n2, n3, n4, n5, n6, n7]),
    }
}

// Reads the entry of the slot that stands. Where none does it reads nothing.
fn read_entry<D: Disk>(disk: &mut D, heads: &Heads, entry: &mut [u8]) -> Did
    requires within { store_size (length entry.old) ≤ D.size disk.old }
    requires heads { IfSome (D.contents disk.old) (HasHeads (length entry.old) heads.now) }
    ensures entry { result ≡ Did.Done → IfSome (D.contents disk.old)
        (HasRead (length entry.old) (standing heads.now) entry.new) }
    ensures contents { D.contents disk.new ≡ D.contents disk.old }
    ensures crash { LeavesNoMore (D.may_leave disk.old) (D.may_leave disk.new) }
    ensures any_moment { LeavesOnly D.moment D.left_since disk.old disk.new
        (D.may_leave disk.old) }
    ensures size { D.size disk.new ≡ D.size disk.old }
    ensures name { D.name disk.new ≡ D.name disk.old }
    ensures count { D.faults disk.new ≡ count_after (did_fail result) (D.faults disk.old) }
{
    match heads.standing() {
        None => Did::Done,
        Some(slot) => disk.read(slot.gate(entry.len() as u64) + 1, entry),
    }
}
