//! Four panels that are served over a net in memory: each is answered over its own wire.

ghost use Rattle.std.specs.Prelude.{IfOk};
ghost use Rattle.ctl_net.specs.MemNet.{AreNewAcceptors};

use super::plants::{acceptor_of, served, written_to};
use crate::in_memory::NOTHING;
use ctl_net::{ClosedAcceptor, MemAcceptor, MemNet, MemPort, OpenGate};
use plant_config::Plant;
use std::alloc::{AllocError, Global};
use std::test::Fail;

// Four panels.
const QUAD: &[u8] = br#"
title = "Quad"
level = [{ matrix = 0, level = 0, sources = 32, destinations = 32 }]
panel = [
    { port = 9001, device = 1 },
    { port = 9002, device = 2 },
    { port = 9003, device = 3 },
    { port = 9004, device = 4 },
]
"#;

// What comes over the wire of each panel, which asks for a destination of its own, and what goes back: an ACK and the tally.
const WIRES: [(&[u8], &[u8]); 4] = [
    (
        b"\x10\x02\x01\x00\x00\x01\x04\xFA\x10\x03",
        b"\x10\x06\x10\x02\x03\x00\x07\x01\x7F\x05\x71\x10\x03",
    ),
    (
        b"\x10\x02\x01\x00\x00\x02\x04\xF9\x10\x03",
        b"\x10\x06\x10\x02\x03\x00\x07\x02\x7F\x05\x70\x10\x03",
    ),
    (
        b"\x10\x02\x01\x00\x00\x03\x04\xF8\x10\x03",
        b"\x10\x06\x10\x02\x03\x00\x07\x03\x7F\x05\x6F\x10\x03",
    ),
    (
        b"\x10\x02\x01\x00\x00\x04\x04\xF7\x10\x03",
        b"\x10\x06\x10\x02\x03\x00\x07\x04\x7F\x05\x6E\x10\x03",
    ),
];

// The acceptors of all panels.
fn acceptors_of(alloc: Global) -> Result<Vec<MemAcceptor>, AllocError>
    ensures { IfOk result (λ acceptors. AreNewAcceptors acceptors.items) }
{
    let first = acceptor_of(alloc, &[WIRES[0].0], NOTHING)?;
    let second = acceptor_of(alloc, &[WIRES[1].0], NOTHING)?;
    let third = acceptor_of(alloc, &[WIRES[2].0], NOTHING)?;
    let fourth = acceptor_of(alloc, &[WIRES[3].0], NOTHING)?;
    Ok(vec![in alloc; first, second, third, fourth]?)
}

fn net_of(alloc: Global) -> Result<MemNet, AllocError> {
    let ports = vec![in alloc; MemPort::new(alloc, 0, Vec::new(alloc))?]?;
    MemNet::new(alloc, acceptors_of(alloc)?, ports, 5, Vec::new(alloc))
}

// Whether each panel was written the answer to what came over its own wire.
fn are_answered(back: &[ClosedAcceptor]) -> bool {
    for (panel, (_, answer)) in WIRES.iter().enumerate() {
        if written_to(back, panel as u32) != *answer {
            return false;
        }
    }
    true
}

#[test]
fn each_panel_is_answered_over_its_own_wire(rt: HostRuntime) -> Result<(), Fail> {
    let plant = Plant::from_toml(rt.alloc(), QUAD)?;
    let mut net = net_of(rt.alloc())?;
    let (told, _) = served(&rt, rt.alloc(), &plant, &mut net, &OpenGate, NOTHING)?;
    assert!(rt; told == Ok((4, 12, 0, 0, None)) && are_answered(net.acceptors_back()));
    Ok(())
}
