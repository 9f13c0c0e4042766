//! A use of `trace_audit`: a trace, audited.

use plant_config::Plant;
use std::alloc::{AllocError, Global};
use std::test::Fail;
use trace_audit::{Verdict, audit};

// Whether a trace is a history of the plant from its start, of so many entries.
pub(crate) fn is_confirmed(
    alloc: Global,
    plant: &Plant,
    trace: &[u8],
    entries: u64,
) -> Result<bool, AllocError> {
    let found = audit(alloc, plant, trace)?;
    Ok(matches!(found, Verdict::Confirmed(count) if count == entries))
}

// The lines may stand in any order.
#[test]
fn a_trace_is_confirmed(rt: HostRuntime) -> Result<(), Fail> {
    let plant = Plant::bench(rt.alloc())?;
    let trace = b"1 poll 0 1 0 = -\n0 told 0 0 0200000503 = 1002040000050305EF1003\n";
    assert!(rt; is_confirmed(rt.alloc(), &plant, trace, 2)?);
    Ok(())
}
