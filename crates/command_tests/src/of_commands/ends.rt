//! Runs that end early, and those of which a read or a write fails.

use super::audits::WHOLE;
use super::{AUDIT, Failing, NOTHING, REPLAY, ends_so};
use std::test::Fail;

const TWICE: &[u8] = b"> 0 10020100000504F61003\n> 0 10020100000504F61003\n";

const READ: Failing = Failing { read: 0, ..NOTHING };

const FIRST_WRITE: Failing = Failing {
    write: 0,
    ..NOTHING
};

const SECOND_WRITE: Failing = Failing {
    write: 1,
    ..NOTHING
};

const THIRD_WRITE: Failing = Failing {
    write: 2,
    ..NOTHING
};

// The words, the script or trace, what fails, the status and the output.
const ENDS: [(&[&str], &[u8], Failing, u8, &str); 11] = [
    (
        &["replay", "bench", "x"],
        TWICE,
        NOTHING,
        3,
        "file x missing\n",
    ),
    (REPLAY, TWICE, READ, 3, "file script fault\n"),
    (REPLAY, b"> 0\n", NOTHING, 5, "script line 1 refused\n"),
    (
        REPLAY,
        b"> 0 10020100000504F61003\n\npole 1\n",
        NOTHING,
        5,
        "script line 3 refused\n",
    ),
    (REPLAY, TWICE, FIRST_WRITE, 7, ""),
    // The line of an end can fail too, at its first write or a later one.
    (&["replay", "bench", "x"], TWICE, SECOND_WRITE, 7, "file "),
    (REPLAY, b"> 0\n", THIRD_WRITE, 7, "script line 1"),
    (AUDIT, WHOLE, READ, 3, "file script fault\n"),
    (AUDIT, WHOLE, FIRST_WRITE, 7, ""),
    (AUDIT, WHOLE, SECOND_WRITE, 7, "confirmed "),
    (AUDIT, b"1 poll 0 1 0 = -\n", THIRD_WRITE, 7, "gap at 0"),
];

#[test]
fn files_and_lines_and_writes_end_a_run(rt: HostRuntime) -> Result<(), Fail> {
    for (words, text, failing, status, output) in ENDS {
        let files = [("script", text)];
        assert!(rt;
            ends_so(&rt, rt.alloc(), words, &files, failing, status, output)?,
            "{output}"
        );
    }
    Ok(())
}
