//! Packets of the two displays of the studio, of index 1 and 2 on screen 0.

ghost use Rattle.std.specs.Prelude.{IfSome};
ghost use Rattle.display_packets.specs.DisplayPacket.{MayShow};

use crate::of_panel_session::bytes_of;
use crate::studio::{STUDIO, plant_of};
use change_boards::Value;
use display_packets::display_packet;
use plant_config::{DisplayId, Plant, SourceId};
use plant_core::Answer;
use std::alloc::{AllocError, Global};
use std::process::Abort;
use std::test::Fail;

// A display and what it shows: the source, whether that is on air, and whether on preview.
type Lamp = (u32, Option<u32>, bool, bool);

// The lamp, where the plant has the display and the source; `Finished` where there is none.
fn answer_of(plant: &Plant, lamp: Option<Lamp>) -> Option<Answer>
    ensures { IfSome result (MayShow plant.now) }
{
    let Some((display, source, air, preview)) = lamp else {
        return Some(Answer::Finished);
    };
    if display as usize >= plant.displays().len() {
        return None;
    }
    if let Some(source) = source {
        if source >= plant.source_count() {
            return None;
        }
        return Some(Answer::Lamp {
            display: DisplayId::of(display),
            value: Value {
                source: Some(SourceId::of(source)),
                air,
                preview,
            },
        });
    }
    Some(Answer::Lamp {
        display: DisplayId::of(display),
        value: Value {
            source: None,
            air,
            preview,
        },
    })
}

// The packet of two answers.
fn packet(
    alloc: Global,
    plant: &Plant,
    first: Answer,
    second: Answer,
) -> Result<Vec<u8>, AllocError>
    requires first { MayShow plant.now first }
    requires second { MayShow plant.now second }
{
    let mut out = Vec::with_capacity(alloc, 1158)?;
    display_packet(plant, 0, &[first, second], &mut out);
    Ok(out)
}

// One lamp or two, and the packet that tells them.
type Row = (Lamp, Option<Lamp>, &'static str);

const ROWS: &[Row] = &[
    // Parked.
    (
        (0, None, false, false),
        Some((1, None, false, false)),
        "10 00 00 00 00 00 01 00 C0 00 00 00 02 00 C0 00 00 00",
    ),
    // Two mixers in a loop on air, and then dark.
    (
        (0, Some(20), true, false),
        Some((1, Some(21), true, false)),
        "16 00 00 00 00 00 01 00 C5 00 03 00 53 32 30 02 00 C5 00 03 00 53 32 31",
    ),
    (
        (0, Some(20), false, false),
        Some((1, Some(21), false, false)),
        "16 00 00 00 00 00 01 00 C0 00 03 00 53 32 30 02 00 C0 00 03 00 53 32 31",
    ),
    // A camera on air, on both, and on preview alone.
    (
        (0, Some(3), true, false),
        None,
        "0E 00 00 00 00 00 01 00 C5 00 04 00 43 41 4D 33",
    ),
    (
        (0, Some(3), true, true),
        None,
        "0E 00 00 00 00 00 01 00 ED 00 04 00 43 41 4D 33",
    ),
    (
        (0, Some(3), false, true),
        None,
        "0E 00 00 00 00 00 01 00 E8 00 04 00 43 41 4D 33",
    ),
    // A camera behind a switch that is off, and then on.
    (
        (1, Some(2), false, false),
        None,
        "0E 00 00 00 00 00 02 00 C0 00 04 00 43 41 4D 32",
    ),
    (
        (1, Some(2), true, false),
        None,
        "0E 00 00 00 00 00 02 00 C5 00 04 00 43 41 4D 32",
    ),
];

// Whether the lamps of a row are told in its packet.
fn are_told(alloc: Global, plant: &Plant, row: &Row) -> Result<bool, Fail> {
    let (first, second, wanted) = *row;
    let (Some(first), Some(second)) = (answer_of(plant, Some(first)), answer_of(plant, second))
    else {
        return Ok(false);
    };
    let told = packet(alloc, plant, first, second)?;
    Ok(told.as_slice() == bytes_of(alloc, wanted)?.as_slice())
}

// The lamps of each row are told so.
fn all_are_told(rt: &impl Abort, alloc: Global, plant: &Plant) -> Result<(), Fail> {
    for (at, row) in ROWS.iter().enumerate() {
        let is_so = are_told(alloc, plant, row)?;
        assert!(rt; is_so, "row {at}");
    }
    Ok(())
}

#[test]
fn lamps_are_told_in_one_packet(rt: HostRuntime) -> Result<(), Fail> {
    let plant = plant_of(rt.alloc(), STUDIO)?;
    all_are_told(&rt, rt.alloc(), &plant)
}
