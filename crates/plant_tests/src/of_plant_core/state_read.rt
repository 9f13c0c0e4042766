//! A state is read from its text and from texts that differ from it in some bytes: what the rules say of each is worked
//! out by hand.

ghost use Rattle.std.specs.Prelude.{◌≡◌, length};
ghost use Rattle.plant_core.specs.StateText.{state_size};

use super::Act::{Connects, Leaves, PollsScreen, Protects, Stores};
use super::plant_of;
use super::state_text::{Deed, text_of, written};
use plant_config::Plant;
use plant_core::{PlantState, StateFault, state_size};
use std::alloc::{AllocError, Global};
use std::process::Abort;
use std::test::Fail;

/// Sources 0 and 1 and destination 0 of a matrix, to which a tie leads; 2 to 4 and 1 to 3 of the other one, where sources
/// 3 and 4 come by that tie; and 5 to 1028 and 4 to 1028 of its second level.
const PLACES: &str = r#"
title = "Places"
level = [
    { matrix = 0, level = 0, sources = 2, destinations = 1 },
    { matrix = 1, level = 0, sources = 3, destinations = 3 },
    { matrix = 1, level = 1, sources = 1024, destinations = 1025 },
]
remote = [
    { matrix = 1, level = 0, source = 1, from = 0, from_source = 0 },
    { matrix = 1, level = 0, source = 2, from = 0, from_source = 1 },
]
pool = [{ from = 0, to = 1, level = 0, ties = 1 }]
display = [{ screen = 0, index = 0, matrix = 1, destination = 0 }]
panel = [{ device = 1, port = 9001 }, { device = 2, port = 9002 }]
"#;

/// Destinations 1 and 2 carry source 3, device 1 protects destination 1, group 1 has a change of destination 3, and panel 1
/// has notices. Panel 0 leaves behind the poll of the display.
const DEEDS: [Deed; 6] = [
    (0, 0, Connects(Some(1))),
    (0, 1, Connects(Some(1))),
    (0, 0, Protects),
    (0, 2, Stores(Some(0), 1)),
    (0, 0, PollsScreen),
    (0, 0, Leaves),
];

/// A place of the text, the bytes that are put there in place of others, and the place of the first field that then breaks a
/// rule.
type Row = (usize, &'static [u8], Option<usize>);

const ROWS: [Row; 53] = [
    (0, &[], None),
    // The counts.
    (0, &[6], Some(0)),
    (4, &[6], Some(4)),
    (8, &[3], Some(8)),
    (12, &[2], Some(12)),
    // A source of the level, of another one, and of none.
    (16, &[1, 0, 0, 0], None),
    (16, &[2, 0, 0, 0], Some(16)),
    (16, &[5, 4, 0, 0], Some(16)),
    // A tie without a source, one that the pool hasn't, none of a remote source, one of a local source.
    (20, &[0, 0, 0, 0], Some(20)),
    (30, &[1], Some(30)),
    (30, &[255, 255, 255, 255], Some(30)),
    (26, &[2], Some(30)),
    (26, &[2, 0, 0, 0, 255, 255, 255, 255], None),
    // A tie for two origins.
    (26, &[4], Some(40)),
    // Devices, and destinations of the numbers 1023 and 1024.
    (34, &[255, 3], None),
    (34, &[0, 4], Some(34)),
    (10_294, &[0, 0], None),
    (10_304, &[0, 0], Some(10_304)),
    // How many changes a group has.
    (12_356, &[1, 1], Some(12_356)),
    (12_356, &[2, 0], None),
    (12_356, &[0, 0], Some(12_358)),
    // The destination of a change.
    (12_358, &[2], None),
    (12_358, &[5, 4], Some(12_358)),
    (12_358, &[4, 4, 0, 0, 5, 0, 0, 0], Some(12_358)),
    (
        12_356,
        &[2, 0, 3, 0, 0, 0, 2, 0, 0, 0, 3, 0, 0, 0],
        Some(12_366),
    ),
    // Its source.
    (12_358, &[0], Some(12_362)),
    (12_358, &[3, 4, 0, 0, 3, 4, 0, 0], None),
    (12_358, &[3, 4, 0, 0, 4, 4, 0, 0], Some(12_362)),
    (12_362, &[255, 255, 255, 255], None),
    // Unused places.
    (12_366, &[1], Some(12_366)),
    (12_370, &[1], Some(12_370)),
    // Whether a panel has left, and its notices.
    (272_706, &[2], Some(272_706)),
    (272_707, &[1], Some(272_707)),
    (272_706, &[0, 1], None),
    (273_736, &[1], Some(273_738)),
    (273_738, &[4], Some(273_738)),
    (274_764, &[2], None),
    (274_765, &[1], None),
    (274_765, &[2], Some(274_765)),
    // What the display was shown.
    (274_766, &[2], Some(274_766)),
    (274_766, &[0], Some(274_767)),
    (274_766, &[0, 0, 0, 0, 0, 0, 0], None),
    (274_766, &[0, 0, 0, 0, 0, 1], Some(274_771)),
    (274_766, &[0, 0, 0, 0, 0, 0, 1], Some(274_772)),
    (274_767, &[4], None),
    (274_767, &[0], Some(274_767)),
    (274_767, &[255, 255, 255, 255], None),
    (274_767, &[255, 255, 255, 255, 1], Some(274_771)),
    (274_767, &[255, 255, 255, 255, 0, 1], Some(274_772)),
    (274_771, &[1, 1], None),
    (274_771, &[2], Some(274_771)),
    (274_772, &[2], Some(274_772)),
    (274_772, &[255], Some(274_772)),
];

// A text with the bytes of a row in place of others.
fn changed(rt: &impl Abort, alloc: Global, text: &[u8], row: &Row) -> Result<Vec<u8>, AllocError> {
    let (place, bytes, _) = *row;
    assert!(rt; place <= text.len());
    let behind = &text[place..];
    assert!(rt; bytes.len() <= behind.len());
    let mut changed = text[..place].to_vec(alloc)?;
    changed.extend_from_slice(bytes)?;
    changed.extend_from_slice(&behind[bytes.len()..])?;
    Ok(changed)
}

// A text as it is read and written again.
fn read_again(alloc: Global, plant: &Plant, text: &[u8]) -> Result<Vec<u8>, StateFault>
    requires { length text.now ≡ state_size plant.now }
{
    let state = PlantState::read_state(alloc, plant, text)?;
    match text_of(alloc, plant, &state) {
        Ok(text) => Ok(text),
        Err(_) => Err(StateFault::NoMemory),
    }
}

// Whether a text is the same when it is read and written again, or refused at this place.
fn is_told(again: &Result<Vec<u8>, StateFault>, text: &[u8], fault: Option<usize>) -> bool {
    match (again, fault) {
        (Ok(again), None) => again.as_slice() == text,
        (Err(StateFault::Damaged(place)), Some(at)) => *place == at,
        _ => false,
    }
}

// A text is read and written as it was, or refused as its row says.
fn is_read(
    rt: &impl Abort,
    alloc: Global,
    plant: &Plant,
    text: &[u8],
    row: &Row,
) -> Result<(), AllocError> {
    let (_, _, fault) = *row;
    let text = changed(rt, alloc, text, row)?;
    assert!(rt; text.len() == state_size(plant));
    assert!(rt; is_told(&read_again(alloc, plant, &text), &text, fault));
    Ok(())
}

#[test]
fn a_text_is_read_as_its_state(rt: HostRuntime) -> Result<(), Fail> {
    let plant = plant_of(rt.alloc(), Some(PLACES))?;
    let text = written(&rt, rt.alloc(), &plant, 1, &DEEDS)?;
    for row in &ROWS {
        is_read(&rt, rt.alloc(), &plant, &text, row)?;
    }
    Ok(())
}
