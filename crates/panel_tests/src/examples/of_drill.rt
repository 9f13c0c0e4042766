//! `drill` in use.

use ctl_net::{Gate, OpenGate};
use drill::{Drilled, run_drill, stream};
use std::alloc::{AllocError, Global};
use std::sync::Wait;
use std::test::Fail;
use std::thread::Threads;

#[test]
fn a_panel_sends(rt: HostRuntime) -> Result<(), Fail> {
    // In the drill of number 7 panel 0 first lets salvo 5 go, and then connects destination 233 to source 3.
    let bytes = stream(rt.alloc(), 7, 0, 2)?;
    assert!(rt;
        bytes.as_slice()
            == b"\x10\x02\x79\x00\x05\x03\x7F\x10\x03\x10\x02\x02\x00\x10\x10\x69\x03\x05\x7D\x10\x03".as_slice()
    );
    Ok(())
}

// Two panels send a hundred messages each, the last one of each as a bad frame.
pub(crate) fn drill_of_two<R: Threads + Wait + Sync, G: Gate>(
    rt: &R,
    alloc: Global,
    gate: &G,
) -> Result<Drilled, AllocError> {
    run_drill(rt, alloc, gate, 7, 2, 200)
}

#[test]
fn panels_share_a_plant(rt: HostRuntime) -> Result<(), Fail> {
    let drilled = drill_of_two(&rt, rt.alloc(), &OpenGate)?;
    assert!(rt; drilled.messages == 200 && drilled.acks == 198 && drilled.naks == 2);
    Ok(())
}
