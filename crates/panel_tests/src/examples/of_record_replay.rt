//! A use of `record_replay`: a script is replayed on the bench plant.

use ctl_io::MemSink;
use plant_config::Plant;
use plant_names::Names;
use record_replay::{ReplayFault, replay_script};
use std::alloc::Global;
use std::test::Fail;

// Replays a script on a plant.
pub(crate) fn replay(
    alloc: Global,
    plant: &Plant,
    script: &[u8],
    out: &mut MemSink,
) -> Result<(), ReplayFault> {
    let names = Names::new(alloc, plant)?;
    replay_script(alloc, plant, &names, script, out)
}

#[test]
fn a_script_is_replayed(rt: HostRuntime) -> Result<(), Fail> {
    let mut out = MemSink::new(rt.alloc(), 100, Vec::new(rt.alloc()))?;
    let plant = Plant::bench(rt.alloc())?;

    // Panel 0 connects destination 5 to source 3.
    let script = b"> 0 10 02 02 00 00 05 03 05 F1 10 03\n";
    assert!(rt; replay(rt.alloc(), &plant, script, &mut out) == Ok(()));
    assert!(rt; out.written() == b"< 0 10061002040000050305EF1003\n".as_slice());

    let refused = replay(rt.alloc(), &plant, b"> 0 nothing\n", &mut out);
    assert!(rt; refused == Err(ReplayFault::BadLine(1)));
    Ok(())
}
