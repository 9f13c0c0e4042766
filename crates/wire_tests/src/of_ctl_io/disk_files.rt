//! Disks of files, in memory and of the system.

ghost use Rattle.std.specs.Prelude.{◌≡◌, IfOk};
ghost use Rattle.ctl_io.specs.MemDisks.{IsNewDisk};

use ctl_io::{Bytes, Disk, Files, Found, MemDisk, MemFiles, NamedDisk, StdFiles};
use std::alloc::{AllocError, Global};
use std::fs;
use std::process::Abort;
use std::test::Fail;

// Why no disk was handed out.
#[derive(Clone, Copy, PartialEq, Eq)]
enum Why {
    Missing,
    Failed,
}

// How many bytes the disk of this name has, which is given back.
fn open<F: Files>(files: &mut F, name: &str, size: u64, make: bool) -> Result<u64, Why> {
    match files.disk(name, size, make) {
        Found::Here(disk) => {
            let size = disk.size();
            files.close_disk(disk);
            Ok(size)
        }
        Found::Missing => Err(Why::Missing),
        Found::Failed => Err(Why::Failed),
    }
}

// A name, a size, whether the file is made, and what comes of it.
type Opening = (&'static str, u64, bool, Result<u64, Why>);

fn are_opened<F: Files>(rt: &impl Abort, files: &mut F, rows: &[Opening]) {
    for (name, size, make, answer) in rows {
        assert!(rt; open(files, name, *size, *make) == *answer, "{name} {size}");
    }
}

// The disk `kept`, of eight bytes.
fn kept(alloc: Global) -> Result<NamedDisk, AllocError>
    ensures { IfOk result (λ entry. IsNewDisk entry.disk) }
{
    Ok(NamedDisk {
        name: Bytes::of(b"kept".to_vec(alloc)?),
        disk: MemDisk::new(alloc, b"abcdefgh".to_vec(alloc)?, 0, 0, Vec::new(alloc))?,
    })
}

// Files in memory that have it, and hand out two objects. Their fourth call fails.
fn in_memory(alloc: Global) -> Result<MemFiles, AllocError> {
    let disks = vec![in alloc; kept(alloc)?]?;
    let failing = vec![in alloc; 3]?;
    let (sources, sinks) = (Vec::new(alloc), Vec::new(alloc));
    MemFiles::new(alloc, sources, sinks, disks, 2, failing, 0, 0, 16)
}

const IN_MEMORY: [Opening; 7] = [
    ("made", 0, false, Err(Why::Missing)),
    ("kept", 17, false, Err(Why::Failed)),
    ("kept", 0, false, Ok(8)),
    ("made", 16, true, Err(Why::Failed)),
    ("kept", 0, false, Err(Why::Failed)),
    ("made", 16, true, Ok(16)),
    ("made", 16, true, Err(Why::Failed)),
];

#[test]
fn disks_in_memory_are_lent_and_made(rt: HostRuntime) -> Result<(), Fail> {
    let mut files = in_memory(rt.alloc())?;
    are_opened(&rt, &mut files, &IN_MEMORY);
    assert!(rt; files.disks_back().len() == 2 && files.faults() == 4);
    Ok(())
}

// A file in a folder that is missing can't be made, and a folder is no disk.
const REAL: [Opening; 6] = [
    ("real", 0, false, Err(Why::Missing)),
    ("missing/real", 0, false, Err(Why::Missing)),
    ("missing/real", 8, true, Err(Why::Failed)),
    (".", 0, false, Err(Why::Failed)),
    ("real", 8, true, Ok(8)),
    ("real", 0, false, Ok(8)),
];

#[test]
fn real_disks_are_made_and_opened(rt: HostRuntime) -> Result<(), Fail> {
    let mut files = StdFiles::new(rt.clone()?);
    are_opened(&rt, &mut files, &REAL);
    assert!(rt; files.faults() == 2);
    fs::remove_file(&rt, "real")?;
    Ok(())
}
