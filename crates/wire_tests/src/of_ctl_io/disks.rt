//! Disks: which calls fail, what a crash leaves, and a disk over a file.

ghost use Rattle.std.specs.Prelude.{◌≡◌, ◌≤◌, length, IfOk};
ghost use Rattle.ctl_io.specs.MemDisk.{stored_by};

use ctl_io::{Did, Disk, MemDisk, StdDisk};
use std::alloc::{AllocError, Global};
use std::fs::OpenOptions;
use std::process::Abort;
use std::test::Fail;

// A disk of eight bytes, with room for so many calls and written bytes.
fn eight_bytes(
    alloc: Global,
    calls: u64,
    room: usize,
    failing: &[u64],
) -> Result<MemDisk, AllocError>
    ensures { IfOk result (λ disk. length (stored_by disk).present ≡ 8) }
{
    let bytes = b"abcdefgh".to_vec(alloc)?;
    MemDisk::new(alloc, bytes, calls, room, failing.to_vec(alloc)?)
}

// Writes, syncs and reads, and writes twice more. What each call answers.
fn work<D: Disk>(disk: &mut D) -> [Did; 5]
    requires { 8 ≤ D.size disk.old }
    ensures { D.size disk.new ≡ D.size disk.old }
{
    let first = disk.write(2, b"12");
    let synced = disk.sync();
    let read = disk.read(0, &mut [0; 8]);
    [
        first,
        synced,
        read,
        disk.write(0, b"345"),
        disk.write(6, b"6"),
    ]
}

// How many of the calls fail, and the number of the first.
fn failures(answers: &[Did]) -> (usize, Option<usize>) {
    let failed = |did: &Did| *did == Did::Failed;
    (
        answers.iter().filter(|did| failed(did)).count(),
        answers.iter().position(failed),
    )
}

#[test]
fn just_the_listed_call_fails(rt: HostRuntime) -> Result<(), Fail> {
    for number in 0..5 {
        let mut disk = eight_bytes(rt.alloc(), 5, 6, &[number])?;
        let answers = work(&mut disk);
        assert!(rt;
            failures(&answers) == (1, Some(number as usize)),
            "{number}"
        );
        assert!(rt; disk.faults() == 1, "{number}");
    }
    Ok(())
}

#[test]
fn a_call_past_the_room_fails(rt: HostRuntime) -> Result<(), Fail> {
    // Room for how many calls and written bytes, and how many calls then fail, with the number of the first.
    for (calls, room, failed) in [
        (5, 6, (0, None)),
        (4, 6, (1, Some(4))),
        (5, 5, (1, Some(4))),
        (5, 3, (1, Some(3))),
        (0, 6, (5, Some(0))),
    ] {
        let mut disk = eight_bytes(rt.alloc(), calls, room, &[])?;
        assert!(rt;
            failures(&work(&mut disk)) == failed,
            "{calls} calls, {room} bytes"
        );
    }
    Ok(())
}

#[test]
fn a_crash_leaves_some_of_the_last_writes(rt: HostRuntime) -> Result<(), Fail> {
    let mut disk = eight_bytes(rt.alloc(), 5, 6, &[])?;
    work(&mut disk);
    assert!(rt; disk.bytes() == b"3452ef6h".as_slice());
    for (kept, left) in [
        (0, b"ab12efgh"),
        (1, b"\xa5\xa5\xa52efgh"),
        (2, b"3452ef\xa5h"),
        (9, b"3452ef\xa5h"),
    ] {
        let crashed = disk.crashed(rt.alloc(), kept)?;
        assert!(rt; crashed.bytes() == left.as_slice(), "{kept} kept");
    }
    Ok(())
}

fn are_bytes<D: Disk>(rt: &impl Abort, disk: &mut D, bytes: [u8; 8])
    requires { 8 ≤ D.size disk.old }
{
    let mut into = [0; 8];
    assert!(rt; disk.read(0, &mut into) == Did::Done && into == bytes);
}

#[test]
fn a_file_is_a_disk(rt: HostRuntime) -> Result<(), Fail> {
    let file = OpenOptions::new()
        .read(true)
        .write(true)
        .create(true)
        .open(&rt, "disk")?;
    file.set_len(8)?;
    let mut disk = StdDisk::new(file, 8);
    assert!(rt; failures(&work(&mut disk)) == (0, None));
    are_bytes(&rt, &mut disk, *b"3452\0\x006\0");
    std::fs::remove_file(&rt, "disk")?;
    Ok(())
}

#[test]
fn a_file_that_ends_is_a_fault(rt: HostRuntime) -> Result<(), Fail> {
    let file = OpenOptions::new()
        .read(true)
        .write(true)
        .create(true)
        .open(&rt, "short")?;
    let mut disk = StdDisk::new(file, 8);
    assert!(rt; disk.read(0, &mut [0; 8]) == Did::Failed && disk.faults() == 1);
    std::fs::remove_file(&rt, "short")?;
    Ok(())
}
