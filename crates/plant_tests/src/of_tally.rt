//! How much an update of a tally reads.

ghost use Rattle.std.specs.Prelude.{◌≡◌, ◌≢◌, ◌+◌, ◌<◌, ◌≤◌, ℕ, None, true, false, slice_get};
ghost use Rattle.std.specs.FinMap.{empty, get};
ghost use Rattle.plant_config.specs.IsPlant.{IsPlant, IsDest};
ghost use Rattle.crosspoint_state.specs.Taps.{AreTapsOf, ArePointsOf};
ghost use Rattle.mixer_effects.specs.Buses.{switched_at};
ghost use Rattle.mixer_effects.specs.Live.{is_live};
ghost use Rattle.mixer_effects.specs.Wiring.{IsWiringOf};
ghost use Rattle.tally.specs.Moved.{has_moved};
ghost use Rattle.tally.specs.Kept.{IsKeptFor};

use crate::of_plant_core::STUDIO;
use crosspoint_state::{Crosspoints, Spot};
use mixer_effects::{Graph, Mixers};
use plant_config::{Change, DestId, Plant, SourceId};
use std::alloc::{AllocError, Global};
use std::marker::Brand;
use std::process::Abort;
use std::slice;
use std::sync::ledger::{Blank, Ledger};
use std::test::Fail;
use tally::{Roots, Tally};
use tap_lists::Steps;

// Follows the change of a destination that isn't live and switches nothing, on a plant of which all else is parked. So no
// device is affected.
fn follow<L: Ledger>(
    plant: &Plant,
    graph: &Graph<'_, L>,
    change: &Change,
    tally: &mut Tally,
    steps: &mut Steps<L>,
)
    requires of { graph.now.plant ≡ plant.now }
    requires wired { IsWiringOf plant.now graph.now.wiring }
    requires tapped { AreTapsOf plant.now graph.now.crosspoints graph.now.taps }
    requires dest { IsDest plant.now change.now.dest }
    requires moved { has_moved empty graph.now.crosspoints change.now.dest ≡ true }
    requires alone { (other : ℕ) → other ≢ change.now.dest
        → get graph.now.crosspoints other ≡ None }
    requires off { is_live plant.now empty plant.now.air change.now.dest ≡ false }
    requires switches { slice_get (switched_at plant.now change.now.dest) 0 ≡ None }
    requires tally { IsKeptFor plant.now empty plant.now.air tally.old }
    ensures kept { IsKeptFor plant.now graph.now.crosspoints plant.now.air tally.new }
    ensures counted { steps.new ≤ steps.old + 32 }
{
    tally.update(graph, slice::from_ref(change), steps);
}

// Destination 5 of a plant of which all is parked is moved to camera 1.
fn is_quiet<L: Ledger>(
    rt: &impl Abort,
    plant: &Plant,
    mixers: &Mixers,
    points: &mut Crosspoints,
    tally: &mut Tally,
    blank: Blank,
)
    requires name { blank.name ≡ L.name }
    requires parts { blank.parts ≡ L.parts }
    requires some { 0 < blank.parts }
    requires wired { IsWiringOf plant.now mixers.now }
    requires kept { ArePointsOf plant.now points.old }
    requires parked { points.old.entries ≡ empty }
    requires tally { IsKeptFor plant.now empty plant.now.air tally.old }
{
    let (book, share) = blank.open::<L>();
    let mut steps = Steps::begin(book, share);
    let (dest, camera) = (DestId::of(5), SourceId::of(1));
    assert!(rt; 5 < plant.destination_count());
    assert!(rt; 1 < plant.source_count());
    assert!(rt; !tally.is_live(dest));
    let switched = Graph::new(plant, mixers, points).switched_by(dest, 0, &mut steps);
    assert!(rt; switched.is_none());
    let spot = Spot {
        source: camera,
        tie: None,
    };
    points.set(plant, dest, Some(spot));
    let change = Change {
        dest,
        source: Some(camera),
    };
    let graph = Graph::new(plant, mixers, points);
    follow(plant, &graph, &change, tally, &mut steps);
    assert!(rt; !tally.on(plant, camera));
    assert!(rt; tally.flipped().is_empty());
}

// The same by a tally of its own.
fn is_quiet_on(
    rt: &impl Abort,
    alloc: Global,
    plant: &Plant,
    mixers: &Mixers,
    points: &mut Crosspoints,
) -> Result<(), AllocError>
    requires plant { IsPlant plant.now }
    requires wired { IsWiringOf plant.now mixers.now }
    requires kept { ArePointsOf plant.now points.old }
    requires parked { points.old.entries ≡ empty }
{
    let mut tally = Tally::new(alloc, plant, Roots::Air)?;
    is_quiet::<Brand>(rt, plant, mixers, points, &mut tally, Blank::new(1));
    Ok(())
}

// The same by mixers and crosspoints of its own.
fn is_quiet_in(rt: &impl Abort, alloc: Global, plant: &Plant) -> Result<(), AllocError>
    requires plant { IsPlant plant.now }
{
    let mixers = Mixers::new(alloc, plant)?;
    let mut points = Crosspoints::new(alloc, plant)?;
    is_quiet_on(rt, alloc, plant, &mixers, &mut points)
}

#[test]
fn a_move_off_air_reads_32_at_most(rt: HostRuntime) -> Result<(), Fail> {
    let plant = Plant::from_toml(rt.alloc(), STUDIO.as_bytes())?;
    Ok(is_quiet_in(&rt, rt.alloc(), &plant)?)
}
