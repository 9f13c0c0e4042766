//! When the worker of the displays pauses: after each round in which no screen had anything to be told, and after no other.

use crate::examples::of_panel_server::{TOWER, locked};
use crate::in_memory::Call::Line;
use crate::in_memory::trace_of;
use ctl_net::{DisplayPort, Sent};
use panel_server::{DriverEnd, drive_displays};
use plant_config::Plant;
use std::alloc::{AllocError, Global};
use std::sync::Wait;
use std::test::Fail;

// A port that takes each packet, and counts packets and pauses.
#[derive(Drop)]
struct PausingPort {
    sent: u32,
    paused: u32,
}

impl DisplayPort for PausingPort {
    ghost use Rattle.std.specs.Prelude.{None};
    ghost use Rattle.ctl_net.specs.Port.{IsSomePacket};

    ghost opening = { λ _. None };

    ghost takes = { IsSomePacket };

    ghost was_sent = { λ _ _. Unit {0} };

    ghost faults = { λ _. 0 };

    fn send(&mut self, _packet: &[u8]) -> Sent {
        self.sent = self.sent.saturating_add(1);
        Sent::Done
    }

    fn pause(&mut self) {
        self.paused = self.paused.saturating_add(1);
    }
}

// Drives the tower's two screens while its panel stays, until the trace fails at the poll of this number.
fn driven_until<W: Wait>(
    rt: &W,
    alloc: Global,
    plant: &Plant,
    port: &mut PausingPort,
    poll: u64,
) -> Result<DriverEnd, AllocError> {
    let mut trace = trace_of(alloc, (Line(0), poll), 0)?;
    let (lock, mut seat) = locked(alloc, plant)?;
    Ok(drive_displays(rt, alloc, plant, &lock, &mut seat, port, &mut trace))
}

// How many polls are made, and how many packets and pauses there were. Both screens are told in the first round.
const ROWS: [(u64, u32, u32); 5] = [(1, 1, 0), (2, 2, 0), (3, 2, 0), (4, 2, 1), (7, 2, 2)];

#[test]
fn the_worker_of_the_displays_pauses_after_quiet_rounds(rt: HostRuntime) -> Result<(), Fail> {
    let plant = Plant::from_toml(rt.alloc(), TOWER)?;
    for (poll, sent, paused) in ROWS {
        let mut port = PausingPort { sent: 0, paused: 0 };
        let end = driven_until(&rt, rt.alloc(), &plant, &mut port, poll)?;
        assert!(rt; end == DriverEnd::TraceFault && port.sent == sent && port.paused == paused);
    }
    Ok(())
}
