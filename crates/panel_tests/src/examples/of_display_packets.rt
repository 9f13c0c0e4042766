//! A use of `display_packets`: the packet by which a display is told that its destination is parked.

use crate::studio::{STUDIO, plant_of};
use change_boards::Value;
use display_packets::display_packet;
use plant_config::{DisplayId, Plant};
use plant_core::Answer;
use std::alloc::{AllocError, Global};
use std::test::Fail;

// Whether the first display of a plant, which is on screen 0 and has index 1, is told so.
fn is_told(alloc: Global, plant: &Plant) -> Result<bool, AllocError> {
    if plant.displays().is_empty() {
        return Ok(false);
    }
    let parked = Answer::Lamp {
        display: DisplayId::of(0),
        value: Value {
            source: None,
            air: false,
            preview: false,
        },
    };
    let mut packet = Vec::with_capacity(alloc, 1158)?;
    display_packet(plant, 0, &[parked], &mut packet);
    Ok(packet.as_slice() == b"\x0A\0\0\0\0\0\x01\0\xC0\0\0\0".as_slice())
}

#[test]
fn a_parked_destination_is_told(rt: HostRuntime) -> Result<(), Fail> {
    let plant = plant_of(rt.alloc(), STUDIO)?;
    assert!(rt; is_told(rt.alloc(), &plant)?);
    Ok(())
}
