//! `tally` in use.

use plant_config::{DestId, Plant, SourceId};
use std::alloc::{AllocError, Global};
use std::process::Abort;
use std::test::Fail;
use tally::{Roots, Tally};

// Nothing of the plant is on air at the start.
fn is_dark(rt: &impl Abort, alloc: Global, plant: &Plant) -> Result<(), AllocError> {
    assert!(rt; 3 < plant.source_count());
    let tally = Tally::new(alloc, plant, Roots::Air)?;
    assert!(rt; !tally.on(plant, SourceId::of(3)));
    assert!(rt; !tally.is_live(DestId::of(5)));
    assert!(rt; tally.flipped().is_empty());
    Ok(())
}

#[test]
fn nothing_is_on_air_at_the_start(rt: HostRuntime) -> Result<(), Fail> {
    let plant = Plant::bench(rt.alloc())?;
    Ok(is_dark(&rt, rt.alloc(), &plant)?)
}
