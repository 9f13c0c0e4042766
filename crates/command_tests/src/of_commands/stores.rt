//! Stores of a plant: made by a format.

use super::{NEVER, worked};
use ctl_io::MemFiles;
use ctl_net::MemNet;
use std::alloc::{AllocError, Global};
use std::sync::Wait;
use std::test::Fail;
use std::thread::Threads;

// Words; which openings of files fail, and how many calls, written bytes and bytes there is room for in a disk that is made; the
// write of the output that fails; and then the status and the output.
#[derive(Clone, Copy)]
struct Row {
    words: &'static [&'static str],
    unopened: &'static [u64],
    calls: u64,
    room: usize,
    size: u64,
    unwritten: u64,
    status: u8,
    output: &'static str,
}

// A format writes two gates, and syncs.
const FORMATTED: Row = Row {
    words: &["format", "bench", "T"],
    unopened: &[],
    calls: 3,
    room: 2,
    size: 525_622,
    unwritten: NEVER,
    status: 0,
    output: "formatted 525622\n",
};

const FAULT: Row = Row {
    status: 3,
    output: "file T fault\n",
    ..FORMATTED
};

const ROWS: [Row; 7] = [
    FORMATTED,
    Row {
        unopened: &[0],
        ..FAULT
    },
    Row {
        size: 525_621,
        ..FAULT
    },
    // The sync fails, and the second gate.
    Row { calls: 2, ..FAULT },
    Row { room: 1, ..FAULT },
    Row {
        unwritten: 0,
        status: 7,
        output: "",
        ..FORMATTED
    },
    Row {
        words: &["format", "nowhere", "T"],
        output: "file nowhere missing\n",
        ..FAULT
    },
];

// No files, with room for a disk that is made.
fn files_of(alloc: Global, row: &Row) -> Result<MemFiles, AllocError> {
    MemFiles::new(
        alloc,
        Vec::new(alloc),
        Vec::new(alloc),
        Vec::new(alloc),
        1,
        row.unopened.to_vec(alloc)?,
        row.calls,
        row.room,
        row.size,
    )
}

fn ends_so<R: Threads + Wait + Sync>(rt: &R, alloc: Global, row: &Row) -> Result<bool, AllocError> {
    let mut files = files_of(alloc, row)?;
    let mut net = MemNet::new(alloc, Vec::new(alloc), Vec::new(alloc), 0, Vec::new(alloc))?;
    let (status, out) = worked(rt, alloc, row.words, &mut files, &mut net, row.unwritten)?;
    Ok(status == row.status && out.written() == row.output.as_bytes())
}

#[test]
fn a_store_is_formatted(rt: HostRuntime) -> Result<(), Fail> {
    for (at, row) in ROWS.iter().enumerate() {
        let is_so = ends_so(&rt, rt.alloc(), row)?;
        assert!(rt; is_so, "{at}");
    }
    Ok(())
}
