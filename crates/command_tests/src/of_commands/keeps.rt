//! Scripts kept in a store of the bench plant.

ghost use Rattle.std.specs.Prelude.{IfOk};
ghost use Rattle.ctl_io.specs.MemDisks.{IsNewDisk};

use super::{NEVER, Ran, source_of, worked};
use ctl_io::{Bytes, MemDisk, MemFiles, NamedDisk};
use ctl_net::MemNet;
use std::alloc::{AllocError, Global};
use std::sync::Wait;
use std::test::Fail;
use std::thread::Threads;

const SIZE: usize = 525_622;

const ASKS: &str = "> 0 10020100000504F61003\n";

const CONNECTS: &str = "> 0 1002020000050305F11003\n";

const BOTH: &str = "> 0 10020100000504F61003\n> 0 1002020000050305F11003\n";

// Words; the script F; which openings of files fail, the call of the store's disk that fails, and the write of the output that
// does; and then the status and the output.
#[derive(Clone, Copy)]
struct Row {
    words: &'static [&'static str],
    script: &'static str,
    unopened: &'static [u64],
    uncalled: u64,
    unwritten: u64,
    status: u8,
    output: &'static str,
}

const CONNECTED: Row = Row {
    words: &["keep", "bench", "T", "F"],
    script: CONNECTS,
    unopened: &[],
    uncalled: NEVER,
    unwritten: NEVER,
    status: 0,
    output: "< 0 10061002040000050305EF1003\nsaved 1\n",
};

const FAULT: Row = Row {
    status: 3,
    output: "file T fault\n",
    ..CONNECTED
};

const FULL: Row = Row {
    status: 5,
    output: "store full\n",
    ..CONNECTED
};

// Over a store that was formatted.
const ROWS: [Row; 12] = [
    CONNECTED,
    Row {
        script: "# nothing\n",
        output: "saved 0\n",
        ..CONNECTED
    },
    Row {
        words: &["keep", "bench", "S", "F"],
        output: "file S missing\n",
        ..FAULT
    },
    // The store is opened before the script.
    Row {
        words: &["keep", "bench", "T", "G"],
        output: "file G missing\n",
        ..FAULT
    },
    Row {
        unopened: &[0],
        ..FAULT
    },
    Row {
        unopened: &[1],
        output: "file F fault\n",
        ..FAULT
    },
    Row {
        script: "> 0 10020100000504F61003\n> 0 0\n",
        status: 5,
        output: "script line 2 refused\n",
        ..CONNECTED
    },
    // An opening takes three calls, and a save four.
    Row {
        uncalled: 2,
        ..FAULT
    },
    Row {
        uncalled: 3,
        ..FAULT
    },
    Row {
        script: BOTH,
        uncalled: 7,
        output: "< 0 10061002030007057F056D1003\nfile T fault\n",
        ..FAULT
    },
    Row {
        unwritten: 0,
        status: 7,
        output: "",
        ..CONNECTED
    },
    Row {
        words: &["keep", "nowhere", "T", "F"],
        output: "file nowhere missing\n",
        ..FAULT
    },
];

// Changes of a store's bytes, and what a keep in it comes to.
type Change = (usize, u8, Row);

// Over the store behind the first keep.
const CHANGED: [Change; 5] = [
    (
        0,
        1,
        Row {
            script: ASKS,
            output: "< 0 10061002030000050305F01003\nsaved 2\n",
            ..CONNECTED
        },
    ),
    // It stands for the start again.
    (0, 0, CONNECTED),
    (
        9,
        33,
        Row {
            output: "store refused: Damaged slot 0 place 0\n",
            ..FULL
        },
    ),
    // Its number is 2^63 and more.
    (8, 128, FULL),
    (
        8,
        128,
        Row {
            script: "",
            output: "saved 9223372036854775809\n",
            ..CONNECTED
        },
    ),
];

// The store T of these bytes, of whose disk a call fails.
fn store_of(alloc: Global, bytes: Vec<u8>, uncalled: u64) -> Result<NamedDisk, AllocError>
    ensures { IfOk result (λ entry. IsNewDisk entry.disk) }
{
    Ok(NamedDisk {
        name: Bytes::of(b"T".to_vec(alloc)?),
        disk: MemDisk::new(alloc, bytes, 20, 1_000_000, vec![in alloc; uncalled]?)?,
    })
}

// The store and the script of a row.
fn files_of(alloc: Global, row: &Row, bytes: Vec<u8>) -> Result<MemFiles, AllocError> {
    let sources = vec![in alloc; source_of(alloc, "F", row.script.as_bytes(), NEVER)?]?;
    let disks = vec![in alloc; store_of(alloc, bytes, row.uncalled)?]?;
    let failing = row.unopened.to_vec(alloc)?;
    MemFiles::new(alloc, sources, Vec::new(alloc), disks, 2, failing, 0, 0, 0)
}

// Runs a row over a store of these bytes.
fn kept<R: Threads + Wait + Sync>(
    rt: &R,
    alloc: Global,
    row: &Row,
    bytes: Vec<u8>,
) -> Result<Ran, AllocError> {
    let mut files = files_of(alloc, row, bytes)?;
    let mut net = MemNet::new(alloc, Vec::new(alloc), Vec::new(alloc), 0, Vec::new(alloc))?;
    let (status, out) = worked(rt, alloc, row.words, &mut files, &mut net, row.unwritten)?;
    Ok(Ran { status, files, out })
}

// Whether a run ended as its row says.
fn is_so(ran: &Ran, row: &Row) -> bool {
    ran.status == row.status && ran.out.written() == row.output.as_bytes()
}

// The store T as a run left it.
fn left(alloc: Global, ran: &Ran) -> Result<Vec<u8>, AllocError> {
    match ran.files.disks_back().first() {
        Some(entry) => entry.disk.bytes().to_vec(alloc),
        None => Ok(Vec::new(alloc)),
    }
}

#[test]
fn a_script_is_kept_in_a_store(rt: HostRuntime) -> Result<(), Fail> {
    for (at, row) in ROWS.iter().enumerate() {
        let ran = kept(&rt, rt.alloc(), row, vec![in rt.alloc(); 0; SIZE]?)?;
        assert!(rt; is_so(&ran, row), "{at}");
    }

    let refused = Row {
        output: "store refused: WrongSize found 10 wanted 525622\n",
        ..FULL
    };
    let ran = kept(&rt, rt.alloc(), &refused, vec![in rt.alloc(); 0; 10]?)?;
    assert!(rt; is_so(&ran, &refused));
    Ok(())
}

#[test]
fn a_keep_goes_on_from_what_stands(rt: HostRuntime) -> Result<(), Fail> {
    let first = kept(&rt, rt.alloc(), &CONNECTED, vec![in rt.alloc(); 0; SIZE]?)?;
    let store = left(rt.alloc(), &first)?;
    assert!(rt; store.len() == SIZE);
    for (at, (place, byte, row)) in CHANGED.iter().enumerate() {
        let mut bytes = store.to_vec(rt.alloc())?;
        assert!(rt; *place < bytes.len());
        bytes[*place] = *byte;
        let ran = kept(&rt, rt.alloc(), row, bytes)?;
        assert!(rt; is_so(&ran, row), "{at}");
    }
    Ok(())
}
