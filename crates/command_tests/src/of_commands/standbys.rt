//! Traces that come to a standby.

use super::audits::WHOLE;
use super::{File, Run, first_wrong};
use std::test::Fail;

// What the files hold.
const FILES: [File<'static>; 6] = [
    ("whole", WHOLE),
    // The four lines in another order, and without one of them.
    (
        "mixed",
        b"2 poll 1 0 0 = 1002040000050305EF1003\n\
        0 told 0 0 0200000503 = 1002040000050305EF1003\n\
        3 poll 1 0 0 = -\n\
        1 poll 0 1 0 = -\n",
    ),
    (
        "gap",
        b"2 poll 1 0 0 = 1002040000050305EF1003\n\
        0 told 0 0 0200000503 = 1002040000050305EF1003\n\
        3 poll 1 0 0 = -\n",
    ),
    ("other 2", b"2 poll 0 0 0 = -\n"),
    ("other 0", b"0 leave 1 = -\n"),
    (
        "too far",
        b"65535 leave 1 = -\n65536 leave 1 = -\n4611686018427387904 leave 0 = -\n",
    ),
];

// Runs over these files.
const RUNS: [Run; 6] = [
    (
        &["standby", "bench", "mixed"],
        0,
        "applied 4\nkept 0\nold 0\nbeyond 0\nat 0 0 5 3\n",
    ),
    (
        &["standby", "bench", "gap"],
        0,
        "applied 1\nkept 2\nold 0\nbeyond 0\nat 0 0 5 3\n",
    ),
    // What was applied is looked at no more.
    (
        &["standby", "bench", "whole", "other 2", "other 0"],
        0,
        "applied 4\nkept 0\nold 2\nbeyond 0\nat 0 0 5 3\n",
    ),
    (
        &["standby", "bench", "gap", "other 2", "other 0"],
        6,
        "standby differs at 2\n",
    ),
    // A line is refused before any other one comes.
    (
        &["standby", "bench", "gap", "other 2", "too far"],
        5,
        "trace line 7 refused\n",
    ),
    (
        &["standby", "bench", "missing"],
        3,
        "file missing missing\n",
    ),
];

#[test]
fn standbys_follow_traces(rt: HostRuntime) -> Result<(), Fail> {
    assert_eq!(rt; first_wrong(&rt, rt.alloc(), &FILES, &RUNS)?, None);
    Ok(())
}
