//! A frame that comes in two pieces.

use dle_framing::{Framer, Item, encode_frame, frame_len};
use std::test::Fail;

const INTERROGATE: [u8; 4] = [0x01, 0x00, 0x00, 0x05];

const SPELLED: &[u8] = b"\x10\x02\x01\x00\x00\x05\x04\xF6\x10\x03";

#[test]
fn a_frame_in_two_pieces(rt: HostRuntime) -> Result<(), Fail> {
    let mut frame = Vec::with_capacity(rt.alloc(), frame_len(&INTERROGATE))?;
    encode_frame(&INTERROGATE, &mut frame);
    assert!(rt; frame.as_slice() == SPELLED);

    let mut framer = Framer::new();
    let (front, rest) = SPELLED.split_at(7);
    let item = Item::Good(INTERROGATE.as_slice());
    assert!(rt; framer.feed(front) == (7, None) && framer.feed(rest) == (3, Some(item)));
    Ok(())
}
