//! A use of `panel_server`: the displays of two screens are told what they show, and then their worker ends.

ghost use Rattle.std.specs.Prelude.{IfOk};
ghost use Rattle.panel_server.specs.Seats.{IsSeatOf};

use ctl_io::MemSink;
use ctl_net::MemPort;
use history_lock::{HistoryLock, OutBox, Seat};
use panel_server::{DriverEnd, drive_displays};
use plant_config::{PanelNo, Plant};
use plant_core::{PlantState, Request};
use std::alloc::{AllocError, Global};
use std::sync::Wait;
use std::test::Fail;

// Two screens with one display each, of parked destinations, and a panel.
pub(crate) const TOWER: &[u8] = br#"
title = "Tower"
[[level]]
matrix = 0
level = 0
sources = 4
destinations = 8
[[display]]
screen = 7
index = 1
matrix = 0
destination = 0
[[display]]
screen = 3
index = 0
matrix = 0
destination = 1
[[panel]]
device = 1
port = 9001
"#;

pub(crate) const LINES: &[u8] = b"1 show 3 1 = 0A00000003000000C0000000
2 show 7 1 = 0A00000007000100C0000000
3 show 3 0 = finished
";

// A lock round a plant at its start, with one seat.
pub(crate) fn locked(
    alloc: Global,
    plant: &Plant,
) -> Result<(HistoryLock<PlantState>, Seat<PlantState>), AllocError>
    ensures { IfOk result (λ made. IsSeatOf plant.now made.0 made.1) }
{
    let (lock, mut seats) = HistoryLock::new(alloc, PlantState::start(alloc, plant)?, 1)?;
    let Some(seat) = seats.pop() else {
        unreachable!()
    };
    Ok((lock, seat))
}

// The plant's first panel leaves.
fn leave<W: Wait>(
    rt: &W,
    alloc: Global,
    plant: &Plant,
    lock: &HistoryLock<PlantState>,
    seat: &mut Seat<PlantState>,
) -> Result<(), AllocError>
    requires { IsSeatOf plant.now lock.now seat.old }
    ensures { IfOk result (λ _. IsSeatOf plant.now lock.now seat.new) }
{
    let mut out = OutBox::new(alloc, PlantState::room_of(plant))?;
    let leave = Request::Leave {
        panel: PanelNo::of(0),
    };
    if plant.panels().is_empty() || lock.call(rt, seat, &leave, &mut out).is_err() {
        return Err(AllocError);
    }
    Ok(())
}

// How the worker of the plant's displays ends, once its panel has left.
pub(crate) fn driven<W: Wait>(
    rt: &W,
    alloc: Global,
    plant: &Plant,
    port: &mut MemPort,
    trace: &mut MemSink,
) -> Result<DriverEnd, AllocError> {
    let (lock, mut seat) = locked(alloc, plant)?;
    leave(rt, alloc, plant, &lock, &mut seat)?;
    Ok(drive_displays(rt, alloc, plant, &lock, &mut seat, port, trace))
}

#[test]
fn each_screen_is_told_once(rt: HostRuntime) -> Result<(), Fail> {
    let alloc = rt.alloc();
    let mut port = MemPort::new(alloc, 24, Vec::new(alloc))?;
    let mut trace = MemSink::new(alloc, 1000, Vec::new(alloc))?;
    let plant = Plant::from_toml(alloc, TOWER)?;
    let end = driven(&rt, alloc, &plant, &mut port, &mut trace)?;
    assert!(rt; end == DriverEnd::Finished { sent: 2, failed: 0 });
    assert!(rt; port.lengths() == [12, 12].as_slice() && trace.written() == LINES);
    Ok(())
}
