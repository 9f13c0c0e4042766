//! Streams of a few kinds and many lengths that a panel may send to bring a session out of step.

use super::desk::Desk;
use super::streams::{ANSWER, ASK, PARKED, Run, bytes_of, is_answered};
use std::alloc::{AllocError, Global};
use std::process::Abort;

// How often a stream repeats what its kind repeats: odd and even, as many bytes as a frame has at most and one more, lengths
// whose length byte or check byte is a DLE, and one that is long.
const LENGTHS: [usize; 7] = [1, 2, 16, 240, 255, 256, 1024];

// What comes first, what is repeated, and for each length what comes behind it and what the panel is sent for all that. Behind
// it comes an interrogate, which is answered.
struct Kind {
    first: &'static [u8],
    repeated: &'static [u8],
    behind: [(&'static [u8], &'static [Run]); 7],
}

const NOTHING: (&[u8], &[Run]) = (&[], &[]);

// An interrogate whose first DLE is the second byte of a pair: a part of a frame, which it ends.
const TAKEN: (&[u8], &[Run]) = (ASK, &[(b"\x10\x15", 1)]);

const ACKED: &[Run] = &[(b"\x10\x06", 1)];

const REFUSED: &[Run] = &[(b"\x10\x15", 1)];

// The answer to the interrogate in front, and its frame as often as it is sent again.
const AGAIN: (&[u8], &[Run]) = (&[], &[(ANSWER, 1), (PARKED, 5)]);

const KINDS: [Kind; 8] = [
    // Frames that are abandoned in a row.
    Kind {
        first: &[],
        repeated: b"\x10\x02A\x10\x10",
        behind: [NOTHING; 7],
    },
    // DLEs before a frame, and in one.
    Kind {
        first: &[],
        repeated: b"\x10",
        behind: [NOTHING; 7],
    },
    Kind {
        first: b"\x10\x02",
        repeated: b"\x10",
        behind: [TAKEN, NOTHING, NOTHING, NOTHING, TAKEN, NOTHING, NOTHING],
    },
    // DATA that are all DLEs, with their length and their check byte.
    Kind {
        first: b"\x10\x02",
        repeated: b"\x10\x10",
        behind: [
            (b"\x01\xEF\x10\x03", ACKED),
            (b"\x02\xDE\x10\x03", ACKED),
            (b"\x10\x10\xF0\x10\x03", ACKED),
            (b"\xF0\x10\x10\x10\x03", ACKED),
            (b"\xFF\x11\x10\x03", ACKED),
            (b"\x00\x00\x10\x03", REFUSED),
            (b"\x00\x00\x10\x03", REFUSED),
        ],
    },
    // An ACK between the bytes of a pair. That of the second one abandons the frame.
    Kind {
        first: b"\x10\x02",
        repeated: b"\x10\x10\x06\x10",
        behind: [TAKEN, NOTHING, NOTHING, NOTHING, NOTHING, NOTHING, NOTHING],
    },
    // A NAK there, behind a frame that may be sent again.
    Kind {
        first: b"\x10\x02\x01\x00\x00\x05\x04\xF6\x10\x03\x10\x02",
        repeated: b"\x10\x10\x15\x10",
        behind: [
            (ASK, &[(ANSWER, 1), (b"\x10\x15", 1)]),
            (&[], &[(ANSWER, 1)]),
            AGAIN,
            AGAIN,
            AGAIN,
            AGAIN,
            AGAIN,
        ],
    },
    // Pairs that begin no frame, and a frame that doesn't end.
    Kind {
        first: &[],
        repeated: b"\x10\x03\x02\x10\x07",
        behind: [NOTHING; 7],
    },
    Kind {
        first: b"\x10\x02",
        repeated: b"A",
        behind: [NOTHING; 7],
    },
];

// A stream of a kind, with what comes behind.
fn stream_of(
    alloc: Global,
    kind: &Kind,
    length: usize,
    behind: &'static [u8],
) -> Result<Vec<u8>, AllocError> {
    let runs = [
        (kind.first, 1),
        (kind.repeated, length),
        (behind, 1),
        (ASK, 1),
    ];
    bytes_of(alloc, runs.as_slice())
}

// What a panel is sent for it.
fn wanted_of(alloc: Global, runs: &[Run]) -> Result<Vec<u8>, AllocError> {
    let mut wanted = bytes_of(alloc, runs)?;
    wanted.extend_from_slice(ANSWER)?;
    Ok(wanted)
}

// Whether a session is sent what a stream of a kind and a length wants.
fn goes_so(
    alloc: Global,
    desk: &mut Desk<'_>,
    kind: &Kind,
    length: usize,
    (behind, runs): (&'static [u8], &[Run]),
) -> Result<bool, AllocError> {
    let stream = stream_of(alloc, kind, length, behind)?;
    let wanted = wanted_of(alloc, runs)?;
    Ok(is_answered(alloc, desk, &stream, &wanted))
}

// A session is sent what the streams of a kind want.
fn is_answered_so(
    rt: &impl Abort,
    alloc: Global,
    desk: &mut Desk<'_>,
    kind: &Kind,
) -> Result<(), AllocError> {
    for (length, row) in LENGTHS.iter().zip(&kind.behind) {
        let is_so = goes_so(alloc, desk, kind, *length, *row)?;
        assert!(rt; is_so, "{length}");
    }
    Ok(())
}

// A session is sent what the streams of all kinds want.
pub(super) fn are_all_answered(
    rt: &impl Abort,
    alloc: Global,
    desk: &mut Desk<'_>,
) -> Result<(), AllocError> {
    for kind in &KINDS {
        is_answered_so(rt, alloc, desk, kind)?;
    }
    Ok(())
}
