//! A stream worked by hand, read as a whole and in pieces, and the longest body.

use dle_framing::{Framer, Item, feed_all, read_items};
use std::alloc::{AllocError, Global};
use std::process::Abort;
use std::test::Fail;

// A frame that is abandoned, a good one, a bad one of two bytes, and the start of a NAK.
const STREAM: &[u8] =
    b"\x10\x02\x01\x10\x06\x10\x02\x01\x01\xFE\x10\x03\x10\x02\x00\x00\x10\x03\x10";

const ITEMS: [Item<&[u8]>; 3] = [Item::Good(b"\x01"), Item::Bad, Item::Nak];

#[test]
fn a_stream_is_read_in_pieces(rt: HostRuntime) -> Result<(), Fail> {
    let (given, rest) = read_items(rt.alloc(), STREAM)?;
    are(&rt, &given, &ITEMS[..2]);
    assert!(rt; rest == b"\x10".as_slice());
    gives(
        &rt,
        rt.alloc(),
        &[&STREAM[..4], &STREAM[4..], b"\x15"],
        &ITEMS,
    )?;
    Ok(())
}

// Pieces of a stream, and its items: a start and 255 bytes, and a start and 256, whose length has no room in its byte.
const BODIES: [(&[&[u8]], &[Item<&[u8]>]); 2] = [
    (
        &[b"\x10\x02", &[0x41; 255], b"\xFF\x42\x10\x03"],
        &[Item::Good(&[0x41; 255])],
    ),
    (
        &[b"\x10\x02", &[0x41; 256], b"\x00\x00\x10\x03"],
        &[Item::Bad],
    ),
];

#[test]
fn a_body_has_at_most_257_bytes(rt: HostRuntime) -> Result<(), Fail> {
    for (pieces, items) in BODIES {
        gives(&rt, rt.alloc(), pieces, items)?;
    }
    Ok(())
}

// A stream that comes in these pieces has these items.
fn gives(
    rt: &impl Abort,
    alloc: Global,
    pieces: &[&[u8]],
    wanted: &[Item<&[u8]>],
) -> Result<(), AllocError> {
    are(rt, &feed_all(alloc, &mut Framer::new(), pieces)?, wanted);
    Ok(())
}

// These items were given.
fn are(rt: &impl Abort, given: &[Item<Vec<u8>>], wanted: &[Item<&[u8]>]) {
    assert!(rt; given.len() == wanted.len());
    for (item, wanted) in given.iter().zip(wanted) {
        assert!(rt; is_same(item, wanted));
    }
}

fn is_same(item: &Item<Vec<u8>>, wanted: &Item<&[u8]>) -> bool {
    match (item, wanted) {
        (Item::Good(carried), Item::Good(bytes)) => carried.as_slice() == *bytes,
        (Item::Bad, Item::Bad) | (Item::Ack, Item::Ack) | (Item::Nak, Item::Nak) => true,
        _ => false,
    }
}
