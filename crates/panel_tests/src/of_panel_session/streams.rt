//! Streams of bytes that a panel may send, as a whole, cut in two anywhere, and byte by byte.

use super::board::Board;
use super::desk::Desk;
use crate::examples::of_panel_session::Given;
use std::alloc::{AllocError, Global};
use std::process::Abort;

// Bytes, and how often they stand there.
pub(super) type Run = (&'static [u8], usize);

// An interrogate of destination 5, which is parked; the answer, and its ACK before it.
pub(super) const ASK: &[u8] = b"\x10\x02\x01\x00\x00\x05\x04\xF6\x10\x03";

pub(super) const PARKED: &[u8] = b"\x10\x02\x03\x00\x07\x05\x7F\x05\x6D\x10\x03";

pub(super) const ANSWER: &[u8] = b"\x10\x06\x10\x02\x03\x00\x07\x05\x7F\x05\x6D\x10\x03";

const START: &[u8] = b"\x10\x02";

const END: &[u8] = b"\x10\x03";

const ACK: &[u8] = b"\x10\x06";

const NAK: &[u8] = b"\x10\x15";

// What a panel sends, and what it is sent.
const STREAMS: &[(&[Run], &[Run])] = &[
    // The half of a pair, a body without a byte, one of two, and pairs that begin no frame or end none.
    (&[(b"\x10", 1)], &[]),
    (&[(START, 1), (END, 1)], &[(NAK, 1)]),
    (&[(START, 1), (b"\0\0", 1), (END, 1)], &[(NAK, 1)]),
    (&[(b"\x10", 1), (ASK, 1)], &[(ANSWER, 1)]),
    (
        &[(START, 1), (b"\x01\x10\x07", 1), (ASK, 1)],
        &[(ANSWER, 1)],
    ),
    (&[(END, 50), (ASK, 1)], &[(ANSWER, 1)]),
    // The longest good body, one that is a byte longer, and one that is far too long.
    (
        &[(START, 1), (b"A", 255), (b"\xFF\x42", 1), (END, 1)],
        &[(ACK, 1)],
    ),
    (
        &[(START, 1), (b"A", 256), (b"\0\0", 1), (END, 1)],
        &[(NAK, 1)],
    ),
    (
        &[(START, 1), (b"A", 300), (END, 1), (ASK, 1)],
        &[(NAK, 1), (ANSWER, 1)],
    ),
    // A frame but for its last byte, and nothing but NAKs and an ACK.
    (&[(START, 1), (b"\x01\0\0\x05\x04\xF6\x10", 1)], &[]),
    (&[(NAK, 1), (ACK, 1), (NAK, 1)], &[]),
    // Frames that are abandoned, one behind the other.
    (&[(b"\x10\x02A", 20), (ASK, 1)], &[(ANSWER, 1)]),
    (&[(START, 30), (ASK, 1)], &[(ANSWER, 1)]),
    (
        &[(b"\x10\x02\x01\0\0\x05\x04\xF6\x10A", 5), (ASK, 1)],
        &[(ANSWER, 1)],
    ),
    // Before a start all DLEs but its own are noise, be they odd or even in number.
    (&[(b"\x10", 2), (ASK, 1)], &[(ANSWER, 1)]),
    (&[(b"\x10", 9), (ASK, 1)], &[(ANSWER, 1)]),
    (&[(b"\x10", 64), (ASK, 1)], &[(ANSWER, 1)]),
    // DATA that are all DLEs: 100 of them, 255, one more, and some whose last pair is cut.
    (
        &[(START, 1), (b"\x10\x10", 100), (b"\x64\x5C", 1), (END, 1)],
        &[(ACK, 1)],
    ),
    (
        &[(START, 1), (b"\x10\x10", 255), (b"\xFF\x11", 1), (END, 1)],
        &[(ACK, 1)],
    ),
    (
        &[(START, 1), (b"\x10\x10", 256), (b"\0\0", 1), (END, 1)],
        &[(NAK, 1)],
    ),
    (&[(START, 1), (b"\x10\x10", 20), (b"\x10", 1)], &[]),
    // A length that counts a pair as two bytes, and one that counts it as one.
    (
        &[(START, 1), (b"\x01\0\0\x10\x10\x05\xEA", 1), (END, 1)],
        &[(NAK, 1)],
    ),
    (
        &[(START, 1), (b"\x01\0\0\x10\x10\x04\xEB", 1), (END, 1)],
        &[(b"\x10\x06\x10\x02\x03\0\x07\x10\x10\x7F\x05\x62\x10\x03", 1)],
    ),
    // An ACK and a NAK between the bytes of a pair: the frame is abandoned there, and what follows is noise.
    (
        &[
            (b"\x10\x02\x01\0\0\x10\x06\x10\x05\x04\xF6\x10\x03", 1),
            (ASK, 1),
        ],
        &[(ANSWER, 1)],
    ),
    (
        &[(b"\x10\x02A\x10\x15\x10\x10\x03", 1), (ASK, 1)],
        &[(ANSWER, 1)],
    ),
    // NAKs behind noise, more of them than are answered, and before all frames; and bad frames in a row.
    (
        &[(ASK, 1), (b"\x10", 1), (NAK, 1)],
        &[(ANSWER, 1), (PARKED, 1)],
    ),
    (&[(ASK, 1), (NAK, 7)], &[(ANSWER, 1), (PARKED, 5)]),
    (&[(NAK, 3), (ACK, 10), (ASK, 1)], &[(ANSWER, 1)]),
    (&[(b"\x10\x02\x01\0\0\x05\x04\xF5\x10\x03", 8)], &[(NAK, 8)]),
    // 64 KiB of noise before a frame, and of a frame without an end.
    (&[(b"\x02\x03", 32_768), (ASK, 1)], &[(ANSWER, 1)]),
    (&[(START, 1), (b"A", 65_536), (ASK, 1)], &[(ANSWER, 1)]),
];

// The bytes of runs, joined.
pub(super) fn bytes_of(alloc: Global, runs: &[Run]) -> Result<Vec<u8>, AllocError> {
    let mut all = Vec::new(alloc);
    for (bytes, times) in runs {
        append(bytes, *times, &mut all)?;
    }
    Ok(all)
}

fn append(bytes: &[u8], times: usize, all: &mut Vec<u8>) -> Result<(), AllocError> {
    for _ in 0..times {
        all.extend_from_slice(bytes)?;
    }
    Ok(())
}

// Whether a session that is made anew is sent this where a panel sends two pieces.
fn are_answered(
    alloc: Global,
    desk: &mut Desk<'_>,
    (first, second): (&[u8], &[u8]),
    wanted: &[u8],
) -> bool {
    let mut board = Board::new();
    desk.reset();
    let mut sent = Given::new(alloc);
    desk.turn(&mut board, first, &mut sent);
    desk.turn(&mut board, second, &mut sent);
    sent.is(wanted)
}

// Whether a stream is answered so wherever it is cut in two, its start among these places, which is a cut behind an idle read.
// A stream of more than 500 bytes is cut nowhere else.
fn is_answered_in_two(alloc: Global, desk: &mut Desk<'_>, stream: &[u8], wanted: &[u8]) -> bool {
    for at in 0..stream.len() {
        if !are_answered(alloc, desk, stream.split_at(at), wanted) {
            return false;
        }
        if stream.len() > 500 {
            break;
        }
    }
    true
}

// What a session that is made anew is sent where a panel sends a stream byte by byte.
fn in_bytes(alloc: Global, desk: &mut Desk<'_>, stream: &[u8]) -> Given {
    let mut board = Board::new();
    desk.reset();
    let mut sent = Given::new(alloc);
    for byte in stream.chunks(1) {
        desk.turn(&mut board, byte, &mut sent);
    }
    sent
}

// Whether a session that is made anew each time is sent this for a stream, however that is cut.
pub(super) fn is_answered(
    alloc: Global,
    desk: &mut Desk<'_>,
    stream: &[u8],
    wanted: &[u8],
) -> bool {
    in_bytes(alloc, desk, stream).is(wanted) && is_answered_in_two(alloc, desk, stream, wanted)
}

// Whether a session is sent what a stream of the table wants.
fn goes_so(
    alloc: Global,
    desk: &mut Desk<'_>,
    (stream, wanted): (&[Run], &[Run]),
) -> Result<bool, AllocError> {
    let stream = bytes_of(alloc, stream)?;
    let wanted = bytes_of(alloc, wanted)?;
    Ok(is_answered(alloc, desk, &stream, &wanted))
}

// The rows of the table.
fn rows() -> &'static [(&'static [Run], &'static [Run])] {
    STREAMS
}

// A session is sent what each stream of the table wants.
pub(super) fn are_all_answered(
    rt: &impl Abort,
    alloc: Global,
    desk: &mut Desk<'_>,
) -> Result<(), AllocError> {
    for (at, row) in rows().iter().enumerate() {
        let is_so = goes_so(alloc, desk, *row)?;
        assert!(rt; is_so, "stream {at}");
    }
    Ok(())
}
