//! `crosspoint_state` in use.

ghost use Rattle.crosspoint_state.specs.Taps.{ArePointsOf};

use crosspoint_state::{Crosspoints, Spot};
use plant_config::{Change, DestId, Plant, SourceId, TieNo};
use std::alloc::{AllocError, Global};
use std::process::Abort;
use std::test::Fail;

// Two destinations are given a camera, and one of them is parked.
fn are_carried(rt: &impl Abort, plant: &Plant, crosspoints: &mut Crosspoints)
    requires { ArePointsOf plant.now crosspoints.old }
{
    assert!(rt; 7 < plant.destination_count());
    let (fourth, seventh) = (DestId::of(4), DestId::of(7));
    let camera = SourceId::of(20);
    assert!(rt; crosspoints.source_at(fourth) == None);

    let spot = Some(Spot {
        source: camera,
        tie: Some(TieNo::of(2)),
    });
    crosspoints.set(plant, fourth, spot);
    crosspoints.set(plant, seventh, spot);
    let again = Change {
        dest: fourth,
        source: Some(camera),
    };
    assert!(rt; crosspoints.is_idle(&again));

    crosspoints.set(plant, fourth, None);
    assert!(rt; crosspoints.at(fourth) == None);
    assert!(rt; crosspoints.at(seventh) == spot);
    assert!(rt; crosspoints.source_at(seventh) == Some(camera));
    assert!(rt; crosspoints.taps().head_of(4) == None);
    assert!(rt; crosspoints.taps().head_of(7) == Some(20));
}

// So it is from the start on.
fn are_carried_first(rt: &impl Abort, alloc: Global, plant: &Plant) -> Result<(), AllocError> {
    are_carried(rt, plant, &mut Crosspoints::new(alloc, plant)?);
    Ok(())
}

#[test]
fn a_destination_carries_what_it_was_given(rt: HostRuntime) -> Result<(), Fail> {
    let plant = Plant::bench(rt.alloc())?;
    Ok(are_carried_first(&rt, rt.alloc(), &plant)?)
}
