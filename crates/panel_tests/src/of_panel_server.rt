//! What no clause says of the workers that share a plant: what comes of them if a call outside fails.

mod panels;
mod pauses;
mod plants;
mod stadium;
mod wires;

use crate::examples::of_panel_server::{LINES, TOWER, driven};
use crate::in_memory::Call::{Line, Send};
use crate::in_memory::{Failing, NOTHING, front, listed, trace_of};
use crate::studio::plant_of;
use ctl_net::MemPort;
use panel_server::DriverEnd;
use plant_config::Plant;
use std::alloc::{AllocError, Global};
use std::process::Abort;
use std::sync::Wait;
use std::test::Fail;

// An interrogate of destination 5, which is parked.
const INTERROGATE: &[u8] = b"\x10\x02\x01\x00\x00\x05\x04\xF6\x10\x03";

// What a panel is sent that asks that: an ACK and the tally.
const ANSWER: &[u8] = b"\x10\x06\x10\x02\x03\x00\x07\x05\x7F\x05\x6D\x10\x03";

// The packet of each of the tower's screens, and both.
const FIRST: &[u8] = b"\x0A\0\0\0\x03\0\0\0\xC0\0\0\0";

const SECOND: &[u8] = b"\x0A\0\0\0\x07\0\x01\0\xC0\0\0\0";

const BOTH: &[u8] = b"\x0A\0\0\0\x03\0\0\0\xC0\0\0\0\x0A\0\0\0\x07\0\x01\0\xC0\0\0\0";

// How the worker of the tower's displays ends if both packets were sent, and if one was lost.
const SENT: DriverEnd = DriverEnd::Finished { sent: 2, failed: 0 };

const LOST: DriverEnd = DriverEnd::Finished { sent: 1, failed: 1 };

// What fails; and then how the worker ends, what was sent, and how many bytes were traced.
type Case = (Failing, DriverEnd, &'static [u8], usize);

// A lost packet isn't sent again, and what isn't traced isn't sent.
const CASES: [Case; 8] = [
    (NOTHING, SENT, BOTH, 98),
    ((Send, 0), LOST, SECOND, 98),
    ((Send, 1), LOST, FIRST, 98),
    ((Send, 2), SENT, BOTH, 98),
    ((Line(0), 0), DriverEnd::TraceFault, b"", 0),
    ((Line(0), 1), DriverEnd::TraceFault, FIRST, 38),
    ((Line(0), 2), DriverEnd::TraceFault, BOTH, 76),
    ((Line(0), 3), SENT, BOTH, 98),
];

// Whether the worker does as a case says.
fn drives_so<W: Wait>(
    rt: &W,
    alloc: Global,
    plant: &Plant,
    case: &Case,
) -> Result<bool, AllocError> {
    let (failing, wanted, sent, traced) = *case;
    let mut port = MemPort::new(alloc, 24, listed(alloc, failing, Send)?)?;
    let mut trace = trace_of(alloc, failing, 0)?;
    let end = driven(rt, alloc, plant, &mut port, &mut trace)?;
    Ok(end == wanted && port.bytes() == sent && trace.written() == front(LINES, traced))
}

// It does as each case says.
fn all_drive_so<W: Wait + Abort>(rt: &W, alloc: Global, plant: &Plant) -> Result<(), AllocError> {
    for (at, case) in CASES.iter().enumerate() {
        let is_so = drives_so(rt, alloc, plant, case)?;
        assert!(rt; is_so, "case {at}");
    }
    Ok(())
}

#[test]
fn displays_are_driven_as_their_calls_go(rt: HostRuntime) -> Result<(), Fail> {
    let plant = plant_of(rt.alloc(), TOWER)?;
    Ok(all_drive_so(&rt, rt.alloc(), &plant)?)
}
