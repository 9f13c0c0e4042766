//! A gate that holds nobody up.

use ctl_net::{Gate, GatePoint, OpenGate};
use std::sync::Wait;
use std::test::Fail;

// Passes both points of a panel's session, over any gate.
fn pass_both<R: Wait, G: Gate>(rt: &R, gate: &G) {
    gate.pass(rt, GatePoint::Start(3));
    gate.pass(rt, GatePoint::Done(3));
}

#[test]
fn an_open_gate_is_passed(rt: HostRuntime) -> Result<(), Fail> {
    pass_both(&rt, &OpenGate);
    assert!(rt; GatePoint::Start(3) != GatePoint::Done(3));
    Ok(())
}
