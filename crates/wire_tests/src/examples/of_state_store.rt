//! A use of `state_store`: after a crash in a save, the text from before it is opened.

ghost use Rattle.std.specs.Prelude.{◌≡◌, ◌≤◌, IfOk, length};
ghost use Rattle.ctl_io.specs.MemDisk.{stored_by};
ghost use Rattle.state_store.specs.Slots.{number_of, store_size};
ghost use Rattle.state_store.specs.Store.{IsSettled, entry_len_of};

use ctl_io::{Did, Disk, MemDisk};
use state_store::{Slot, Slots, format, number_bytes};
use std::alloc::{AllocError, Global};
use std::test::Fail;

// A disk with room for two slots with texts of two bytes, whose call of this number fails.
fn new_disk(alloc: Global, failing: u64) -> Result<MemDisk, AllocError>
    ensures { IfOk result (λ disk. length (stored_by disk).present ≡ 22) }
{
    let bytes = vec![in alloc; 0; 22]?;
    MemDisk::new(alloc, bytes, 20, 40, vec![in alloc; failing]?)
}

// The entry of a text.
fn entry_of(alloc: Global, number: u64, text: &[u8; 2]) -> Result<Vec<u8>, AllocError>
    ensures number { IfOk result (λ entry. number_of entry.items ≡ number) }
    ensures len { IfOk result (λ entry. length entry.items ≡ 10) }
{
    let mut entry = number_bytes(number).to_vec(alloc)?;
    entry.extend_from_slice(text)?;
    Ok(entry)
}

// Saves a text under the next number.
fn save_next<D: Disk + Drop>(
    alloc: Global,
    slots: Slots<D>,
    text: &[u8; 2],
) -> Result<Result<Slots<D>, D>, AllocError>
    requires settled { IsSettled D.size D.contents D.may_leave slots }
    requires len { entry_len_of slots ≡ 10 }
    ensures settled { IfOk result (λ saved. IfOk saved (IsSettled D.size D.contents D.may_leave)) }
    ensures len { IfOk result (λ saved. IfOk saved (λ slots. entry_len_of slots ≡ 10)) }
{
    match slots.number().checked_add(1) {
        Some(number) => {
            let entry = entry_of(alloc, number, text)?;
            Ok(slots.save(&entry))
        }
        None => Ok(Err(slots.into_disk())),
    }
}

// Opens the store on a disk and saves two texts, or as many as the disk's calls allow.
fn save_two<D: Disk + Drop>(alloc: Global, disk: D) -> Result<D, AllocError>
    requires { store_size 10 ≤ D.size disk }
{
    let slots = match Slots::open(disk, &mut [0; 10]) {
        Ok(slots) => slots,
        Err(disk) => return Ok(disk),
    };
    let slots = match save_next(alloc, slots, b"on")? {
        Ok(slots) => slots,
        Err(disk) => return Ok(disk),
    };
    match save_next(alloc, slots, b"by")? {
        Ok(slots) => Ok(slots.into_disk()),
        Err(disk) => Ok(disk),
    }
}

// The slot that stands on a disk, and its entry.
fn found<D: Disk + Drop>(disk: D) -> (Option<Slot>, [u8; 10])
    requires { store_size 10 ≤ D.size disk }
{
    let mut entry = [0; 10];
    let slot = Slots::open(disk, &mut entry)
        .ok()
        .and_then(|slots| slots.standing());
    (slot, entry)
}

#[test]
fn a_crash_in_a_save_leaves_the_text_before(rt: HostRuntime) -> Result<(), Fail> {
    // The sync of the second text fails: 3 calls format the disk, 3 open it, and 4 save the first text.
    let mut disk = new_disk(rt.alloc(), 11)?;
    assert!(rt; format(&mut disk, 10) == Did::Done);
    let disk = save_two(rt.alloc(), disk)?;
    let crashed = disk.crashed(rt.alloc(), 1)?;
    assert!(rt; crashed.bytes().len() == 22 && crashed.bytes()[12..] == [0xa5; 10]);
    assert!(rt; found(crashed) == (Some(Slot::First), *b"\x01\0\0\0\0\0\0\0on"));
    Ok(())
}
