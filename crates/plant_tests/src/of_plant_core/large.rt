//! A group that is filled, and a dump of a level that has more destinations than a byte counts.

use super::rows::FULL;
use super::{Act, Reply, Rig, Work, is_worked, request_of};
use history_lock::Machine;
use plant_core::Answer;
use std::process::Abort;
use std::test::Fail;
use swp08_messages::Point;

// A plant of one level with this many destinations and one source.
const LARGE: &str = r#"
title = "Large"
[[level]]
matrix = 0
level = 0
sources = 1
destinations = 257
[[panel]]
device = 1
port = 9001
"#;

// The destinations below a count are stored in group 3.
fn fill(rt: &impl Abort, rig: &mut Rig, count: u16) {
    for dest in 0..count {
        let row = (
            0,
            (0, 0, dest),
            Act::Stores(Some(0), 3),
            Reply::Stored(Some(0), 3),
        );
        rig.is_answered(rt, &row);
    }
}

// A dump of that plant tells all its destinations.
fn is_dumped(rt: &impl Abort, rig: &mut Rig) {
    let at = Point {
        matrix: 0,
        level: 0,
        dest: 0,
    };
    rig.ask(rt, &request_of(0, at, Act::Dumps));
    let last = Answer::Dumped {
        matrix: 0,
        level: 0,
        dest: 256,
        source: None,
    };
    assert!(rt; rig.answers().len() == 257 && rig.answers().last() == Some(&last));
}

// A group of that plant is filled, and its level dumped.
pub(super) fn is_filled_and_dumped(rt: &impl Abort, rig: &mut Rig) {
    assert!(rt; rig.state.room() == 257);
    fill(rt, rig, 256);
    rig.are_answered(rt, &FULL);
    is_dumped(rt, rig);
}

#[test]
fn a_large_plant_fills_a_group_and_a_dump(rt: HostRuntime) -> Result<(), Fail> {
    is_worked(&rt, rt.alloc(), Some(LARGE), Work::Large)
}
