//! Streams worked by hand, read as a whole and cut at each place, and the longest packet.

mod port;

use std::process::Abort;
use std::slice::Iter;
use std::test::Fail;
use tsl_stream::{StreamItem, StreamReader};
use tsl_umd5::TslFault;

// Streams, and the items of each.
const STREAMS: &[(&[u8], &[StreamItem<'static>])] = &[
    // A packet with a pair in it, and noise around it.
    (
        b"A\xFE\xFE\x02\x0E\x00\x00\x00\x00\x00\xFE\xFE\x00\xC5\x00\x04\x00CAM3\x02\xFE",
        &[StreamItem::Packet(b"\x0E\x00\x00\x00\x00\x00\xFE\x00\xC5\x00\x04\x00CAM3")],
    ),
    // A packet that is broken off by a start, whose packet is too short.
    (
        b"\xFE\x02\x0E\x00\xFE\x02\x03\x00\x00\x00\x00",
        &[StreamItem::Bad(TslFault::Short(5))],
    ),
    // A packet that is broken off by a DLE before another byte, and then a good one.
    (
        b"\xFE\x02\x04\x00\x00\xFE\x04\xFE\x02\x04\x00\x00\x00\x07\x00",
        &[StreamItem::Packet(b"\x04\x00\x00\x00\x07\x00")],
    ),
    // A count that makes a packet too long, behind which reading goes on at once.
    (
        b"\xFE\x02\xFF\x07\xFE\x02\x04\x00\x01\x00\x07\x00",
        &[
            StreamItem::Bad(TslFault::TooLong(2049)),
            StreamItem::Bad(TslFault::Version(1)),
        ],
    ),
    // A packet that isn't whole.
    (b"\xFE\x02\x04\x00\x00\x00\x07", &[]),
];

#[test]
fn streams_are_read_in_pieces(rt: HostRuntime) {
    for (stream, items) in STREAMS {
        reads_in_cuts(&rt, stream, items);
    }
}

// The stream has these items, wherever it is cut in two.
fn reads_in_cuts(rt: &impl Abort, stream: &[u8], items: &[StreamItem<'_>]) {
    for place in 0..=stream.len() {
        reads(rt, &stream[..place], &stream[place..], items);
    }
}

// Two pieces have these items.
fn reads(rt: &impl Abort, first: &[u8], second: &[u8], items: &[StreamItem<'_>]) {
    let mut reader = StreamReader::new();
    let mut left = items.iter();
    feed_piece(rt, &mut reader, first, &mut left);
    feed_piece(rt, &mut reader, second, &mut left);
    assert!(rt; left.next().is_none(), "of {first:?} and {second:?}");
}

// The items that end in a piece are the next ones.
fn feed_piece(
    rt: &impl Abort,
    reader: &mut StreamReader,
    piece: &[u8],
    items: &mut Iter<'_, StreamItem<'_>>,
) {
    let mut used = 0;
    while used < piece.len() {
        let (count, item) = reader.feed(&piece[used..]);
        used += count;
        if let Some(item) = item {
            assert!(rt; items.next() == Some(&item));
        }
    }
}

// The heads of a packet of 2,048 bytes, and of its stream, in which the first byte is doubled.
const HEADS: (&[u8], &[u8]) = (
    b"\xFE\x07\x00\x00\x07\x00\x01\x00\xC0\x00\xF4\x07",
    b"\xFE\x02\xFE\xFE\x07\x00\x00\x07\x00\x01\x00\xC0\x00\xF4\x07",
);

#[test]
fn the_longest_packet_has_2048_bytes(rt: HostRuntime) -> Result<(), Fail> {
    let (mut packet, mut stream) = (HEADS.0.to_vec(rt.alloc())?, HEADS.1.to_vec(rt.alloc())?);
    packet.resize(2048, b'x')?;
    stream.resize(2051, b'x')?;
    reads(&rt, &stream, b"", &[StreamItem::Packet(packet.as_slice())]);
    Ok(())
}
