//! The text of a state, by what stands at some of its places.

ghost use Rattle.std.specs.Prelude.{◌≡◌};

use super::Act::{Connects, Leaves, Protects, Stores};
use super::rows::POOL;
use super::{Act, Rig, plant_of, request_of};
use plant_config::Plant;
use plant_core::{PlantState, state_size};
use std::alloc::{AllocError, Global};
use std::process::Abort;
use std::test::Fail;
use swp08_messages::Point;

/// A panel, the number of a destination of the last matrix, and what the panel does.
pub(super) type Deed = (u32, u16, Act);

/// A place of a text, and bytes that stand there.
type Part = (usize, &'static [u8]);

/// The bench: a source, a protect and their notices, a group of a change that parks, and a panel that left.
const BENCH: [Deed; 4] = [
    (1, 5, Protects),
    (1, 5, Connects(Some(3))),
    (1, 4, Stores(None, 1)),
    (1, 0, Leaves),
];

const BENCH_PARTS: [Part; 7] = [
    (0, &[32, 0, 0, 0, 32, 0, 0, 0, 2, 0, 0, 0, 0, 0, 0, 0]),
    (56, &[255, 255, 255, 255, 255, 255, 255, 255, 255, 255]),
    (66, &[3, 0, 0, 0, 255, 255, 255, 255, 2, 0]),
    (336, &[0, 0, 0]),
    (2386, &[1, 0, 4, 0, 0, 0, 255, 255, 255, 255, 0]),
    (262_736, &[0, 0, 0, 0, 0, 0, 3, 0]),
    (262_769, &[1, 0, 0, 0, 0, 0, 0, 0]),
];

/// Two destinations that share a tie.
const TIES: [Deed; 2] = [(0, 1, Connects(Some(1))), (0, 2, Connects(Some(1)))];

const TIES_PARTS: [Part; 2] = [
    (36, &[3, 0, 0, 0, 0, 0, 0, 0, 255, 255]),
    (46, &[3, 0, 0, 0, 0, 0, 0, 0, 255, 255]),
];

// What is done, one after the other.
fn are_done(rt: &impl Abort, rig: &mut Rig, matrix: u8, deeds: &[Deed])
    ensures { rig.new.state.plant ≡ rig.old.state.plant }
{
    for (panel, dest, act) in deeds {
        let at = Point {
            matrix,
            level: 0,
            dest: *dest,
        };
        rig.ask(rt, &request_of(*panel, at, *act));
    }
}

// The text of a state.
pub(super) fn text_of(
    alloc: Global,
    plant: &Plant,
    state: &PlantState,
) -> Result<Vec<u8>, AllocError>
    requires { state.now.plant ≡ plant.now }
{
    let mut text = Vec::with_capacity(alloc, state_size(plant))?;
    state.write_state(&mut text);
    Ok(text)
}

// The text of a plant after these deeds.
pub(super) fn written(
    rt: &impl Abort,
    alloc: Global,
    plant: &Plant,
    matrix: u8,
    deeds: &[Deed],
) -> Result<Vec<u8>, AllocError> {
    let mut rig = Rig::of(alloc, plant)?;
    are_done(rt, &mut rig, matrix, deeds);
    text_of(alloc, plant, &rig.state)
}

// The text has these bytes at their place.
fn has(rt: &impl Abort, text: &[u8], part: &Part) {
    let (place, bytes) = *part;
    assert!(rt; place <= text.len());
    assert!(rt; text[place..].starts_with(bytes));
}

// The text has these parts.
fn has_parts(rt: &impl Abort, text: &[u8], parts: &[Part]) {
    for part in parts {
        has(rt, text, part);
    }
}

// After these deeds on a plant the text has these parts.
fn is_written(
    rt: &impl Abort,
    alloc: Global,
    plant: &Plant,
    matrix: u8,
    deeds: &[Deed],
    parts: &[Part],
) -> Result<(), AllocError> {
    let text = written(rt, alloc, plant, matrix, deeds)?;
    assert!(rt; text.len() == state_size(plant));
    has_parts(rt, &text, parts);
    Ok(())
}

#[test]
fn a_state_has_its_text(rt: HostRuntime) -> Result<(), Fail> {
    let bench = plant_of(rt.alloc(), None)?;
    assert!(rt; state_size(&bench) == 262_802);
    is_written(&rt, rt.alloc(), &bench, 0, &BENCH, &BENCH_PARTS)?;
    let pool = plant_of(rt.alloc(), Some(POOL))?;
    Ok(is_written(&rt, rt.alloc(), &pool, 1, &TIES, &TIES_PARTS)?)
}
