//! Words, with a form and without one.

use super::{NOTHING, Run, ends_so, first_wrong};
use std::test::Fail;

const USAGE: &str =
    "usage: plantctl check PLANT, replay PLANT SCRIPT, audit PLANT TRACE.., serve PLANT [PREFIX], drill NUMBER PANELS MESSAGES, stream PLANT SCRIPT OUT, monitor FILE, format PLANT STORE, keep PLANT STORE SCRIPT, standby PLANT TRACE.., drive NUMBER WANTS\n";

// Words with a form, and what a run over no files comes to.
const FORMED: [Run; 7] = [
    // A command's word may name a file, and so may `help`.
    (&["replay", "help", "check"], 3, "file help missing\n"),
    (&["audit", "bench", "audit"], 3, "file audit missing\n"),
    (&["check", "check"], 3, "file check missing\n"),
    (&["monitor", "monitor"], 3, "file monitor missing\n"),
    (
        &["stream", "bench", "stream", "made"],
        3,
        "file stream missing\n",
    ),
    // A plant is served, and the net has no port for it.
    (&["serve", "bench"], 8, "net fault\n"),
    (
        &["drill", "7", "2", "200"],
        0,
        "panels 2\nmessages 200\nacks 198\nnaks 2\nsessions 2\nhistory confirmed\n",
    ),
];

// Words without one.
const UNFORMED: [&[&str]; 53] = [
    &[],
    &["help"],
    &["--version"],
    &["check"],
    &["check", ""],
    &["check", "-plant"],
    &["check", "-h"],
    &["check", "--"],
    &["check", "--help"],
    &["check", "--", "bench"],
    &["check", "bench", "bench"],
    &["checks", "bench"],
    &["replay", "bench"],
    &["replay", "bench", "script", "script"],
    &["replay", "bench", ""],
    &["replay", "bench", "-script"],
    &["replay", "", "script"],
    &["replay", "-", "script"],
    &["audit"],
    &["audit", "bench"],
    &["audit", "", "trace"],
    &["audit", "-", "trace"],
    &["audit", "-bench", "trace"],
    &["audit", "bench", ""],
    &["audit", "bench", "-trace"],
    &["audit", "bench", "trace", ""],
    &["audit", "bench", "trace", "--", "trace"],
    &["audit", "bench", "trace", "trace", "-trace"],
    &["", "bench"],
    &["serve"],
    &["serve", "bench", "-day"],
    &["serve", "bench", "day", "night"],
    // A number has at most 10 digits, zeros in front or not.
    &["drill", "0004294967295", "1", "1"],
    &["drill", "4294967296", "1", "1"],
    &["drill", "7", "0", "5"],
    &["drill", "7", "17", "100"],
    &["drill", "7", "2", "1"],
    &["monitor"],
    &["monitor", "-a"],
    &["monitor", "a", "b"],
    &["stream", "bench", "script"],
    &["stream", "bench", "script", ""],
    &["stream", "bench", "script", "-made"],
    &["stream", "bench", "script", "made", "made"],
    &["standby"],
    &["standby", "bench"],
    &["standby", "bench", ""],
    &["drive"],
    &["drive", "0"],
    &["drive", "0", "0"],
    &["drive", "0", "100001"],
    &["drive", "4294967296", "1"],
    &["drive", "0", "32", "1"],
];

#[test]
fn words_have_a_form_or_lead_to_the_usage(rt: HostRuntime) -> Result<(), Fail> {
    let alloc = rt.alloc();
    assert_eq!(rt; first_wrong(&rt, alloc, &[], &FORMED)?, None);
    for words in UNFORMED {
        assert!(rt;
            ends_so(&rt, alloc, words, &[], NOTHING, 2, USAGE)?,
            "{words:?}"
        );
    }
    Ok(())
}
