//! Limits of what is read, each with a row at it and a row past it. Those of whole scripts and streams are checked over the built
//! program, where 64 MiB take no time.

use super::{NOTHING, REPLAY, ends_so};
use std::alloc::{AllocError, Global};
use std::test::Fail;

const LONGEST_LINE: usize = 65_536;

// 4 MiB
const LONGEST_PLANT: usize = 4_194_304;

// It ends in a comment.
const PLANT: &[u8] = b"title = \"Long\"\n\
    [[level]]\nmatrix = 0\nlevel = 0\nsources = 1\ndestinations = 1\n\
    [[panel]]\ndevice = 1\nport = 9001\n#";

const INTERROGATE: &[u8] = b"> 0 10020100000504F61003";

const CHECK: &[&str] = &["check", "script"];

// Words, the front of their file, and the byte that it is filled up with to a length; and then the status and the output.
type Row = (
    &'static [&'static str],
    &'static [u8],
    u8,
    usize,
    u8,
    &'static str,
);

const ROWS: [Row; 4] = [
    // The rest of the line is spaces, which are dropped.
    (
        REPLAY,
        INTERROGATE,
        b' ',
        LONGEST_LINE,
        0,
        "< 0 10061002030007057F056D1003\n",
    ),
    (
        REPLAY,
        INTERROGATE,
        b' ',
        LONGEST_LINE + 1,
        5,
        "script line 1 refused\n",
    ),
    (
        CHECK,
        PLANT,
        b'#',
        LONGEST_PLANT,
        0,
        "plant Long\nlevels 1\nsources 1\ndestinations 1\npools 0\nties 0\n\
         devices 0\nbuses 0\ndisplays 0\npanels 1\n",
    ),
    (
        CHECK,
        PLANT,
        b'#',
        LONGEST_PLANT + 1,
        4,
        "plant refused: too long\n",
    ),
];

// These bytes and as many of another one as make them so long.
fn filled(alloc: Global, front: &[u8], byte: u8, length: usize) -> Result<Vec<u8>, AllocError> {
    let mut text = front.to_vec(alloc)?;
    text.resize(length, byte)?;
    Ok(text)
}

#[test]
fn what_is_past_a_limit_is_refused(rt: HostRuntime) -> Result<(), Fail> {
    let alloc = rt.alloc();
    for (words, front, byte, length, status, output) in ROWS {
        let text = filled(alloc, front, byte, length)?;
        let files = [("script", text.as_slice())];
        assert!(rt; ends_so(&rt, alloc, words, &files, NOTHING, status, output)?);
    }
    Ok(())
}
