//! Traces that are audited.

use super::{File, NOTHING, Run, ends_so, first_wrong};
use std::test::Fail;

const SMALL: &[u8] = b"title = \"Small\"\n\
    [[level]]\nmatrix = 0\nlevel = 0\nsources = 4\ndestinations = 3\n\
    [[panel]]\ndevice = 1\nport = 9001\n";

// A history of the bench plant: panel 0 connects a destination, has no notice, and panel 1 has one.
pub(super) const WHOLE: &[u8] = b"0 told 0 0 0200000503 = 1002040000050305EF1003\n\
    1 poll 0 1 0 = -\n\
    2 poll 1 0 0 = 1002040000050305EF1003\n\
    3 poll 1 0 0 = -\n";

// What the files hold. Of two with one name the first opening finds the first.
const FILES: [File<'static>; 20] = [
    ("whole", WHOLE),
    (
        "line 0",
        b"0 told 0 0 0200000503 = 1002040000050305EF1003\n",
    ),
    ("line 1", b"1 poll 0 1 0 = -\n"),
    ("line 2", b"2 poll 1 0 0 = 1002040000050305EF1003\n"),
    ("line 3", b"3 poll 1 0 0 = -\n"),
    // The last line lacks its LF.
    ("open 0", b"0 told 0 0 0200000503 = 1002040000050305EF1003"),
    ("open 3 1", b"3 poll 1 0 0 = -\n1 poll 0 1 0 = -"),
    ("again 2", b"2 poll 1 0 0 = 1002040000050305EF1003\n"),
    (
        "other 0",
        b"0 told 0 0 0200000503 = 1002040000050405EE1003\n",
    ),
    ("other 2", b"2 poll 1 0 0 = -"),
    ("no line", b"x"),
    ("empty line", b"\n"),
    ("empty", b""),
    (
        "half",
        b"0 told 0 0 0200000503 = 1002040000050305EF1003\n1 poll 0 1 0 = -",
    ),
    (
        "half",
        b"2 poll 1 0 0 = 1002040000050305EF1003\n3 poll 1 0 0 = -",
    ),
    ("small", SMALL),
    ("both", SMALL),
    ("both", b"0 told 0 0 01000002 = -\n"),
    ("both", b"1 leave 0 = -\n"),
    ("faulty", b"title = 1\n"),
];

// Runs over these files.
const RUNS: [Run; 29] = [
    (&["audit", "bench", "whole"], 0, "confirmed 4\n"),
    // The lines may be in any order, and in any number of files.
    (
        &["audit", "bench", "line 3", "line 2", "line 1", "line 0"],
        0,
        "confirmed 4\n",
    ),
    // An LF is put in behind a last line that lacks it, and an empty file has no line.
    (
        &["audit", "bench", "open 0", "empty", "open 3 1", "line 2"],
        0,
        "confirmed 4\n",
    ),
    (&["audit", "bench", "empty"], 0, "confirmed 0\n"),
    (
        &["audit", "bench", "empty", "empty line"],
        5,
        "trace line 1 refused\n",
    ),
    // A name that stands twice is opened twice.
    (&["audit", "bench", "half", "half"], 0, "confirmed 4\n"),
    (&["audit", "bench", "half"], 0, "confirmed 2\n"),
    (
        &["audit", "bench", "half", "half", "half"],
        3,
        "file half fault\n",
    ),
    (
        &["audit", "bench", "line 0", "line 1", "line 3"],
        6,
        "gap at 2\n",
    ),
    (&["audit", "bench", "line 1"], 6, "gap at 0\n"),
    (&["audit", "bench", "whole", "again 2"], 6, "repeat at 2\n"),
    (
        &["audit", "bench", "half", "half", "line 0"],
        6,
        "repeat at 0\n",
    ),
    // The first finding by position is told, whatever the order of the lines.
    (
        &["audit", "bench", "line 3", "line 2", "again 2", "line 0"],
        6,
        "gap at 1\n",
    ),
    (
        &["audit", "bench", "other 0", "line 1", "line 2", "line 3"],
        6,
        "differs at 0: kept 1002040000050405EE1003 wanted 1002040000050305EF1003\n",
    ),
    (
        &["audit", "bench", "other 2", "open 0", "open 3 1"],
        6,
        "differs at 2: kept - wanted 1002040000050305EF1003\n",
    ),
    // Lines are numbered over all files.
    (
        &["audit", "bench", "whole", "no line"],
        5,
        "trace line 5 refused\n",
    ),
    (
        &["audit", "bench", "open 0", "open 3 1", "no line"],
        5,
        "trace line 4 refused\n",
    ),
    (
        &["audit", "bench", "empty", "no line", "whole"],
        5,
        "trace line 1 refused\n",
    ),
    // A plant file is no trace.
    (&["audit", "bench", "small"], 5, "trace line 1 refused\n"),
    // The bench plant has two panels, and this one has one.
    (&["audit", "small", "whole"], 5, "trace line 3 refused\n"),
    (&["audit", "small", "line 1"], 6, "gap at 0\n"),
    // A name is opened once as the plant's, and then as each trace's.
    (
        &["audit", "both", "both"],
        6,
        "differs at 0: kept - wanted 1002030007027F05701003\n",
    ),
    (
        &["audit", "both", "both", "both"],
        6,
        "differs at 0: kept - wanted 1002030007027F05701003\n",
    ),
    (
        &["audit", "both", "both", "both", "both"],
        3,
        "file both fault\n",
    ),
    // What is missing is told in the order of the words, before any line is read.
    (
        &["audit", "nowhere", "neither"],
        3,
        "file nowhere missing\n",
    ),
    (
        &["audit", "small", "no line", "nowhere"],
        3,
        "file nowhere missing\n",
    ),
    (
        &["audit", "bench", "nowhere", "neither"],
        3,
        "file nowhere missing\n",
    ),
    (
        &["audit", "faulty", "nowhere"],
        4,
        "plant refused: WrongType at top 0 title\n",
    ),
    (
        &["audit", "empty", "whole"],
        4,
        "plant refused: Missing at top 0 title\n",
    ),
];

#[test]
fn traces_are_audited(rt: HostRuntime) -> Result<(), Fail> {
    let alloc = rt.alloc();
    assert_eq!(rt; first_wrong(&rt, alloc, &FILES, &RUNS)?, None);
    Ok(())
}

// The number of traces, the status and the output.
const COUNTS: [(usize, u8, &str); 2] = [
    (200, 0, "confirmed 0\n"),
    (
        201,
        2,
        "usage: plantctl check PLANT, replay PLANT SCRIPT, audit PLANT TRACE.., serve PLANT [PREFIX], drill NUMBER PANELS MESSAGES, stream PLANT SCRIPT OUT, monitor FILE, format PLANT STORE, keep PLANT STORE SCRIPT, standby PLANT TRACE.., drive NUMBER WANTS\n",
    ),
];

#[test]
fn an_audit_has_at_most_200_traces(rt: HostRuntime) -> Result<(), Fail> {
    let alloc = rt.alloc();
    for (count, status, output) in COUNTS {
        let files = vec![in alloc; ("empty", b"".as_slice()); count]?;
        let mut words = ["audit", "bench"].to_vec(alloc)?;
        words.resize(count + 2, "empty")?;
        assert!(rt; ends_so(&rt, alloc, &words, &files, NOTHING, status, output)?);
    }
    Ok(())
}
