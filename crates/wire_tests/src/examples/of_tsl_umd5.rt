//! One use of `tsl_umd5`: a packet of two displays is written and read back.

use std::alloc::{AllocError, Global};
use std::test::Fail;
use tsl_umd5::{Lamp, MAX_BRIGHTNESS, MAX_PACKET, Shown, add_display, begin_packet, read_packet};

const CAMERA: Shown<'static> = Shown {
    index: 1,
    right: Lamp::Red,
    middle: Lamp::Red,
    left: Lamp::Off,
    brightness: MAX_BRIGHTNESS,
    text: b"CAM 3",
};

const STUDIO: Shown<'static> = Shown {
    index: 2,
    right: Lamp::Off,
    text: b"STUDIO 1",
    ..CAMERA
};

// The packet that tells both to screen 7.
fn written(alloc: Global) -> Result<Vec<u8>, AllocError> {
    let mut out = Vec::with_capacity(alloc, MAX_PACKET)?;
    begin_packet(7, &mut out);
    add_display(0, &CAMERA, &mut out);
    add_display(0, &STUDIO, &mut out);
    Ok(out)
}

#[test]
fn a_packet_of_two_displays(rt: HostRuntime) -> Result<(), Fail> {
    let out = written(rt.alloc())?;
    let mut packet = read_packet(&out)?;
    assert!(rt; packet.screen() == 7);
    for wanted in &[Some(CAMERA), Some(STUDIO), None] {
        assert!(rt; packet.next() == *wanted);
    }
    Ok(())
}
