//! Scripts of several panels, with bytes cut anywhere, notices, resends, leaves, protects and salvos.

ghost use Rattle.std.specs.Prelude.{◌<◌};

use super::frames::FRAMES;
use super::{NOTHING, REPLAY, replays_so, run_over};
use std::alloc::{AllocError, Global};
use std::test::Fail;

// A script, the status of its replay, and the output.
pub(super) type Script = (&'static [u8], u8, &'static str);

const SCRIPTS: &[Script] = &[
    // No line, and a last line without its end.
    (b"", 0, ""),
    (
        b"> 0 10020100000504F61003",
        0,
        "< 0 10061002030007057F056D1003\n",
    ),
    // One byte of noise, and an idle turn.
    (b"> 0 00\npoll 0\n", 0, "< 0 -\n< 0 -\n"),
    // A wrong check byte.
    (b"> 0 10020100000504F51003\n", 0, "< 0 1015\n"),
    // A frame that the start of the next one abandons.
    (
        b"> 0 100201000010020100000504F61003\n",
        0,
        "< 0 10061002030007057F056D1003\n",
    ),
    // An unknown command and a wrong length are acknowledged, and nothing else.
    (
        b"> 0 10020701F81003\n> 0 10020200000504F51003\n",
        0,
        "< 0 1006\n< 0 1006\n",
    ),
    // The last frame is sent again, five times, and once more for each new one. An ACK asks nothing.
    (
        b"> 0 10020100000504F61003\n> 0 101510151015\n> 0 1006\n> 0 101510151015\n> 0 10020100000504F610031015\n",
        0,
        "< 0 10061002030007057F056D1003\n\
         < 0 1002030007057F056D10031002030007057F056D10031002030007057F056D1003\n\
         < 0 -\n\
         < 0 1002030007057F056D10031002030007057F056D1003\n\
         < 0 10061002030007057F056D10031002030007057F056D1003\n",
    ),
    // The other panel hears of a change, once, and the panel that made it doesn't.
    (
        b"> 0 10020200000503 05F11003\npoll 1\npoll 1\npoll 0\n",
        0,
        "< 0 10061002040000050305EF1003\n< 1 1002040000050305EF1003\n< 1 -\n< 0 -\n",
    ),
    // A notice is sent again as any frame. It has what stands when it is told.
    (
        b"> 0 10020200000503 05F11003\n> 0 1002020007057F056E1003\n> 1 1015\npoll 1\n> 1 1015\n",
        0,
        "< 0 10061002040000050305EF1003\n\
         < 0 10061002040007057F056C1003\n\
         < 1 1002040007057F056C1003\n\
         < 1 -\n\
         < 1 1002040007057F056C1003\n",
    ),
    // Whoever left hears of nothing, and is still answered.
    (
        b"leave 1\n> 0 10020200000503 05F11003\npoll 1\n> 001 10020100000504F61003\nleave 1\n",
        0,
        "leave 1\n\
         < 0 10061002040000050305EF1003\n\
         < 1 -\n\
         < 1 10061002030000050305F01003\n\
         leave 1\n",
    ),
    // What another device protects isn't connected, and a salvo with such a destination is refused and kept.
    (
        b"> 0 1002 0C 00000501 05 E91003\n\
         > 1 1002 02 00000503 05 F11003\n\
         > 1 1002 78 0000040307 06 741003\n\
         > 1 1002 78 0000050307 06 731003\n\
         > 1 1002 78 0000060307 06 721003\n\
         > 1 1002 79 0007 03 7D1003\n\
         > 1 1002 7C 0702 03 781003\n",
        0,
        "< 0 100610020D000100050106E61003\n\
         < 1 10061002030007057F056D100310020D000100050106E61003\n\
         < 1 100610027A000004030706721003\n\
         < 1 100610027A000005030706711003\n\
         < 1 100610027A000006030706701003\n\
         < 1 100610027B030703781003\n\
         < 1 100610027D0000060307020108681003\n",
    ),
    // An empty salvo is neither taken nor cleared, and one with an entry is read back and cleared.
    (
        b"> 0 1002 79 0009 03 7B1003\n\
         > 0 1002 78 0000010209 06 761003\n\
         > 0 1002 7C 0900 03 781003\n\
         > 0 1002 7C 0901 03 771003\n\
         > 0 1002 79 0109 03 7A1003\n\
         > 0 1002 79 0109 03 7A1003\n",
        0,
        "< 0 100610027B020903771003\n\
         < 0 100610027A000001020906741003\n\
         < 0 100610027D00000102090001086E1003\n\
         < 0 100610027D00000000090102086F1003\n\
         < 0 100610027B010903781003\n\
         < 0 100610027B020903771003\n",
    ),
    // A frame that is too long, of 300 bytes, is bad, and the one behind it is answered.
    (TOO_LONG, 0, "< 0 101510061002030007057F056D1003\n"),
    // Lines that are skipped are counted.
    (b"# \xC3\xA9 > 9\n\npoll 00000\n#", 0, "< 0 -\n"),
    (b"# note\n\npoll 0\npole 1\n", 5, "script line 4 refused\n"),
];

const TOO_LONG: &[u8] =
    b"> 0 1002414141414141414141414141414141414141414141414141414141414141414141414141414141414141414141414141414141\
    41414141414141414141414141414141414141414141414141414141414141414141414141414141414141414141414141414141414141\
    41414141414141414141414141414141414141414141414141414141414141414141414141414141414141414141414141414141414141\
    41414141414141414141414141414141414141414141414141414141414141414141414141414141414141414141414141414141414141\
    41414141414141414141414141414141414141414141414141414141414141414141414141414141414141414141414141414141414141\
    41414141414141414141414141414141414141414141414141414141411003 10020100000504F61003\n";

// Lines that have no form.
const REFUSED: &[&[u8]] = &[
    b" ",
    b"> 0",
    b"> 0 ",
    b"> 0  ",
    b"> 0 1",
    b"> 0 1g",
    b"> 2 00",
    b"> 000000 00",
    b">0 00",
    b"> x 00",
    b"poll",
    b"poll 2",
    b"poll 0 ",
    b"poll 000000",
    b"Poll 0",
    b"leave",
    b"leave 2",
    b"show 0",
];

#[test]
fn scripts_are_replayed(rt: HostRuntime) -> Result<(), Fail> {
    for scripts in [FRAMES, SCRIPTS] {
        for (script, status, output) in scripts {
            assert!(rt;
                replays_so(&rt, rt.alloc(), script, *status, output)?,
                "{output}"
            );
        }
    }
    Ok(())
}

#[test]
fn lines_without_a_form_are_refused(rt: HostRuntime) -> Result<(), Fail> {
    for line in REFUSED {
        assert!(rt;
            replays_so(&rt, rt.alloc(), line, 5, "script line 1 refused\n")?,
            "{line:?}"
        );
    }
    Ok(())
}

// Noise, a connect, a frame with a wrong check byte, a NAK, the start of a frame, and an interrogate.
const STREAM: &[u8] =
    b"00100202000010100305E6100310020100000504F5100310151002010010020100000504F61003";

const SENT: &[u8] =
    b"1006100204000010100305E410031015100204000010100305E4100310061002030007057F056D1003";

// The script in which panel 0 sends the stream in pieces of so many bytes, which are two digits each.
fn cut(alloc: Global, size: usize) -> Result<Vec<u8>, AllocError>
    requires some { 0 < size }
    requires few { size < 100 }
{
    let mut script = Vec::new(alloc);
    for piece in STREAM.chunks(2 * size) {
        script.extend_from_slice(b"> 0 ")?;
        script.extend_from_slice(piece)?;
        script.extend_from_slice(b"\n")?;
    }
    Ok(script)
}

// What all lines of an output send, one behind the other.
fn sent(alloc: Global, output: &[u8]) -> Result<Vec<u8>, AllocError> {
    let mut all = Vec::new(alloc);
    for line in output.split(|byte| *byte == b'\n') {
        match line.strip_prefix(b"< 0 ") {
            Some(b"-") | None => {}
            Some(digits) => all.extend_from_slice(digits)?,
        }
    }
    Ok(all)
}

#[test]
fn a_cut_changes_nothing_that_is_sent(rt: HostRuntime) -> Result<(), Fail> {
    let alloc = rt.alloc();
    for size in 1..40 {
        let script = cut(alloc, size)?;
        let ran = run_over(&rt, alloc, REPLAY, &[("script", &script)], NOTHING)?;
        assert_eq!(rt; sent(alloc, ran.out.written())?.as_slice(), SENT);
        assert_eq!(rt; ran.status, 0);
    }
    Ok(())
}
