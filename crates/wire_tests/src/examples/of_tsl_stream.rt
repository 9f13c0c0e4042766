//! A packet that comes in two pieces, cut between the bytes of a pair.

use std::test::Fail;
use tsl_stream::{MAX_STREAM, StreamItem, StreamReader, write_stream};
use tsl_umd5::{Lamp, MAX_BRIGHTNESS, MAX_PACKET, Shown, add_display, begin_packet};

const CAMERA: Shown<'static> = Shown {
    index: 254,
    right: Lamp::Red,
    middle: Lamp::Red,
    left: Lamp::Off,
    brightness: MAX_BRIGHTNESS,
    text: b"CAM3",
};

const PACKET: &[u8] = b"\x0E\x00\x00\x00\x00\x00\xFE\x00\xC5\x00\x04\x00CAM3";

const SPELLED: &[u8] = b"\xFE\x02\x0E\x00\x00\x00\x00\x00\xFE\xFE\x00\xC5\x00\x04\x00CAM3";

#[test]
fn a_packet_is_written(rt: HostRuntime) -> Result<(), Fail> {
    let mut packet = Vec::with_capacity(rt.alloc(), MAX_PACKET)?;
    begin_packet(0, &mut packet);
    add_display(0, &CAMERA, &mut packet);
    let mut text = Vec::with_capacity(rt.alloc(), MAX_STREAM)?;
    write_stream(&packet, &mut text);
    assert!(rt; packet.as_slice() == PACKET && text.as_slice() == SPELLED);
    Ok(())
}

#[test]
fn a_packet_in_two_pieces(rt: HostRuntime) {
    let mut reader = StreamReader::new();
    let (front, rest) = SPELLED.split_at(9);
    let item = StreamItem::Packet(PACKET);
    assert!(rt; reader.feed(front) == (9, None) && reader.feed(rest) == (10, Some(item)));
}
