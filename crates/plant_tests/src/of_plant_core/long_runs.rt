//! Wide levels: the last numbers, and many steps.

use super::displays::{are_lamps, shows};
use super::rows::LAST;
use super::{Act, Rig, WIDEST, Work, is_worked, request_of};
use plant_config::{DestId, SourceId};
use std::process::Abort;
use std::test::Fail;
use swp08_messages::Point;

// A destination of matrix 0.
fn place(dest: u16) -> Point {
    Point {
        matrix: 0,
        level: 0,
        dest,
    }
}

// A destination of matrix 0 carries source 1 and source 2 in turn.
fn take_turns(rt: &impl Abort, rig: &mut Rig, dest: u16, turns: u32) {
    let at = place(dest);
    let first = request_of(0, at, Act::Connects(Some(1)));
    let second = request_of(0, at, Act::Connects(Some(2)));
    for _turn in 0..turns {
        rig.ask(rt, &first);
        rig.ask(rt, &second);
    }
    assert!(rt; rig.state.source_at(DestId::of(u32::from(dest))) == Some(SourceId::of(2)));
}

// The rows of the last numbers are answered, and destination 5 goes to and back.
pub(super) fn go_wide(rt: &impl Abort, rig: &mut Rig) {
    rig.are_answered(rt, &LAST);
    take_turns(rt, rig, 5, 100_000);
}

#[test]
fn a_step_costs_the_same_on_many_destinations(rt: HostRuntime) -> Result<(), Fail> {
    is_worked(&rt, rt.alloc(), Some(WIDEST), Work::Turns)
}

// One level of as many destinations as a plant has. Destination 0 is on air, and a display watches destination 1.
const CROWDED: &str = r#"
title = "Crowded"
level = [{ matrix = 0, level = 0, sources = 3, destinations = 65536 }]
air = [{ matrix = 0, destination = 0 }]
display = [{ screen = 0, index = 0, matrix = 0, destination = 1 }]
panel = [{ device = 1, port = 9001 }]
"#;

// All destinations but the first carry source 1.
fn take_source_1(rt: &impl Abort, rig: &mut Rig) {
    for dest in 0..u16::MAX {
        let act = Act::ConnectsExt(Some(1));
        rig.ask(rt, &request_of(0, place(dest + 1), act));
    }
}

// Source 1 is on air and off in turn, while all destinations but the first carry it. The display is told so at the end.
pub(super) fn flip(rt: &impl Abort, rig: &mut Rig) {
    take_source_1(rt, rig);
    take_turns(rt, rig, 0, 50_000);
    rig.ask(rt, &shows(false));
    assert!(rt; are_lamps(rig.answers(), &[(0, Some(1), false, false)]));
}

#[test]
fn a_source_on_all_destinations_goes_on_air_and_off(rt: HostRuntime) -> Result<(), Fail> {
    is_worked(&rt, rt.alloc(), Some(CROWDED), Work::Flips)
}
