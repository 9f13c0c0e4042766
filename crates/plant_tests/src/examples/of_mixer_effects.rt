//! `mixer_effects` in use.

ghost use Rattle.std.specs.Prelude.{◌≡◌, ◌+◌, ◌<◌};

use crosspoint_state::Crosspoints;
use mixer_effects::{Graph, Mixers};
use plant_config::{DestId, DeviceId, Plant, SourceId};
use std::alloc::{AllocError, Global};
use std::marker::Brand;
use std::process::Abort;
use std::sync::ledger::{Blank, Ledger};
use std::test::Fail;
use tap_lists::Steps;

// The plant has no device, so there is no bus to be on, and nothing is carried. Each answer counts as one read.
fn there_is_no_bus<L: Ledger>(rt: &impl Abort, graph: &Graph<'_, L>, steps: &mut Steps<L>)
    ensures { steps.new ≡ steps.old + 6 }
{
    assert!(rt; graph.fed_device(SourceId::of(1), steps).is_none());
    assert!(rt; graph.bus(DeviceId::of(0), 0, steps).is_none());
    assert!(rt; graph.device_of(DestId::of(2), steps).is_none());
    assert!(rt; graph.switched_by(DestId::of(2), 0, steps).is_none());
    assert!(rt; !graph.is_on(DestId::of(2), steps));
    assert!(rt; graph.origin_at(DestId::of(2), steps).is_none());
}

// The same by a count of its own.
fn counted<L: Ledger>(
    rt: &impl Abort,
    plant: &Plant,
    mixers: &Mixers,
    points: &Crosspoints,
    blank: Blank,
)
    requires name { blank.name ≡ L.name }
    requires parts { blank.parts ≡ L.parts }
    requires some { 0 < blank.parts }
{
    let (book, share) = blank.open::<L>();
    there_is_no_bus(
        rt,
        &Graph::new(plant, mixers, points),
        &mut Steps::begin(book, share),
    );
}

// Of such a plant.
fn has_no_bus(rt: &impl Abort, alloc: Global, plant: &Plant) -> Result<(), AllocError> {
    let points = Crosspoints::new(alloc, plant)?;
    let mixers = Mixers::new(alloc, plant)?;
    counted::<Brand>(rt, plant, &mixers, &points, Blank::new(1));
    Ok(())
}

#[test]
fn a_router_alone_has_no_bus(rt: HostRuntime) -> Result<(), Fail> {
    let plant = Plant::bench(rt.alloc())?;
    Ok(has_no_bus(&rt, rt.alloc(), &plant)?)
}
