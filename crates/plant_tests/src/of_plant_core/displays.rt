//! What polls of a screen tell, on the studio plant and on one with many displays.

use super::{Act, Rig, Work, is_worked, request_of};
use change_boards::Value;
use plant_config::{DestId, PanelNo};
use plant_core::{Answer, Request};
use std::alloc::{AllocError, Global};
use std::process::Abort;
use std::test::Fail;
use swp08_messages::Point;
use tally::Roots;

// Two mixers, one bus with a switch. Destination 0 is on air, 1 on preview; displays watch 2 and 3; masters have a tie-line.
pub(crate) const STUDIO: &str = r#"title = "Studio"
[[level]]
matrix = 0
level = 0
sources = 24
destinations = 32
source_names = ["BLACK", "CAM1", "CAM2", "CAM3"]
[[level]]
matrix = 0
level = 1
sources = 2
destinations = 4
[[level]]
matrix = 1
level = 0
sources = 24
destinations = 16
[[remote]]
matrix = 1
level = 0
source = 16
from = 0
from_source = 3
[[remote]]
matrix = 1
level = 0
source = 17
from = 0
from_source = 2
[[pool]]
from = 0
to = 1
level = 0
ties = 1
reserve = 1
[[device]]
name = "ME1"
matrix = 0
source = 20
[[device]]
name = "ME2"
matrix = 0
source = 21
[[bus]]
device = "ME1"
matrix = 0
destination = 10
[[bus]]
device = "ME1"
matrix = 0
destination = 11
switch_matrix = 0
switch_level = 1
switch_destination = 0
[[bus]]
device = "ME2"
matrix = 0
destination = 12
[[air]]
matrix = 0
destination = 0
[[preview]]
matrix = 0
destination = 1
[[display]]
screen = 0
index = 1
matrix = 0
destination = 2
[[display]]
screen = 0
index = 2
matrix = 0
destination = 3
[[panel]]
device = 1
port = 9001
[[panel]]
device = 2
port = 9002
master = true
"#;

/// A display, the source that it is shown, and whether that is on air and on preview.
type Shown = (u32, Option<u32>, bool, bool);

/// Connects of panel 0, each of a level's destination and source, and what a poll of screen 0 tells behind them.
type Row = (&'static [(u8, u16, u16)], bool, &'static [Shown]);

const ROWS: [Row; 7] = [
    (
        &[],
        false,
        &[(0, None, false, false), (1, None, false, false)],
    ),
    // The mixers are in a loop that is on air, and then cut.
    (
        &[(0, 0, 20), (0, 10, 21), (0, 12, 20), (0, 2, 20), (0, 3, 21)],
        false,
        &[(0, Some(20), true, false), (1, Some(21), true, false)],
    ),
    (
        &[(0, 0, 0)],
        false,
        &[(0, Some(20), false, false), (1, Some(21), false, false)],
    ),
    // A bus is dark until its switch is on.
    (
        &[(0, 0, 20), (0, 11, 2), (0, 3, 2)],
        false,
        &[(0, Some(20), true, false), (1, Some(2), false, false)],
    ),
    (&[(1, 0, 1), (0, 1, 2)], false, &[(1, Some(2), true, true)]),
    (&[], false, &[]),
    (
        &[],
        true,
        &[(0, Some(20), true, false), (1, Some(2), true, true)],
    ),
];

// A poll of screen 0.
pub(super) fn shows(refresh: bool) -> Request {
    Request::DisplayPoll { screen: 0, refresh }
}

// Panel 0 connects a destination of a level of matrix 0.
fn connect(level: u8, dest: u16, source: u16) -> Request {
    let at = Point {
        matrix: 0,
        level,
        dest,
    };
    request_of(0, at, Act::Connects(Some(source)))
}

// Whether a value is as it is shown.
fn is_shown(value: &Value, shown: &Shown) -> bool {
    let source = match value.source {
        Some(source) => Some(source.get()),
        None => None,
    };
    source == shown.1 && value.air == shown.2 && value.preview == shown.3
}

// Whether an answer is the lamp of a display that is shown this.
fn is_lamp(answer: &Answer, shown: &Shown) -> bool {
    match answer {
        Answer::Lamp { display, value } => display.get() == shown.0 && is_shown(value, shown),
        _ => false,
    }
}

// Whether these are the lamps of displays that are shown this, and no more.
pub(super) fn are_lamps(answers: &[Answer], wanted: &[Shown]) -> bool {
    for (answer, shown) in answers.iter().zip(wanted) {
        if !is_lamp(answer, shown) {
            return false;
        }
    }
    answers.len() == wanted.len()
}

// Panel 0 connects all of these.
fn connect_all(rt: &impl Abort, rig: &mut Rig, connects: &[(u8, u16, u16)]) {
    for (level, dest, source) in connects {
        rig.ask(rt, &connect(*level, *dest, *source));
    }
}

// A row is told.
fn is_told(rt: &impl Abort, rig: &mut Rig, row: &Row) {
    let (connects, refresh, shown) = *row;
    connect_all(rt, rig, connects);
    rig.ask(rt, &shows(refresh));
    assert!(rt; are_lamps(rig.answers(), shown));
}

// Nothing differs any more, and when both panels have left, all is finished.
fn are_finished(rt: &impl Abort, rig: &mut Rig) {
    for panel in 0..2 {
        let panel = PanelNo::of(panel);
        rig.ask(rt, &shows(false));
        assert!(rt; rig.answers().is_empty());
        rig.ask(rt, &Request::Leave { panel });
    }
    rig.ask(rt, &shows(false));
    assert!(rt; rig.answers() == [Answer::Finished].as_slice());
}

// The rows are told one after the other, and then all is finished.
pub(super) fn are_told_until_finished(rt: &impl Abort, rig: &mut Rig) {
    for row in &ROWS {
        is_told(rt, rig, row);
    }
    let dest = DestId::of(12);
    assert!(rt; rig.state.is_live(Roots::Air, dest) && !rig.state.is_live(Roots::Preview, dest));
    are_finished(rt, rig);
}

#[test]
fn displays_are_told_until_all_is_finished(rt: HostRuntime) -> Result<(), Fail> {
    is_worked(&rt, rt.alloc(), Some(STUDIO), Work::Displays)
}

// The file of a plant with so many displays of one screen, of which each watches destination 0.
fn many(alloc: Global, count: u32) -> Result<String, AllocError> {
    let mut text = String::from_str(
        alloc,
        "title = \"Many\"\n[[level]]\nmatrix = 0\nlevel = 0\nsources = 2\ndestinations = 1\n\
         [[panel]]\ndevice = 1\nport = 9001\n",
    )?;
    for index in 0..count {
        let display = format!(in alloc;
            "[[display]]\nscreen = 0\nindex = {index}\nmatrix = 0\ndestination = 0\n"
        )?;
        text.push_str(&display)?;
    }
    Ok(text)
}

// Polls tell the displays of a plant of 70: 64, the others, none, and again 64 where all are told anew.
pub(super) fn are_counted(rt: &impl Abort, rig: &mut Rig) {
    for (refresh, count) in &[(false, 64), (false, 6), (false, 0), (true, 64)] {
        rig.ask(rt, &shows(*refresh));
        assert!(rt; rig.answers().len() == *count);
    }
}

#[test]
fn a_poll_tells_64_displays_at_most(rt: HostRuntime) -> Result<(), Fail> {
    let text = many(rt.alloc(), 70)?;
    is_worked(&rt, rt.alloc(), Some(text.as_str()), Work::Polls)
}

// Polls a screen so often. After all of its displays were told, none is.
pub(super) fn are_quiet(rt: &impl Abort, rig: &mut Rig, count: u32) {
    for _poll in 0..count {
        rig.ask(rt, &shows(false));
    }
    assert!(rt; rig.answers().is_empty());
}

// If each poll looked at all displays of its screen, these would take minutes.
#[test]
fn a_poll_looks_at_displays_that_are_due(rt: HostRuntime) -> Result<(), Fail> {
    let text = many(rt.alloc(), 4096)?;
    is_worked(&rt, rt.alloc(), Some(text.as_str()), Work::QuietPolls)
}
