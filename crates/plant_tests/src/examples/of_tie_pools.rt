//! `tie_pools` in use.

ghost use Rattle.std.specs.Prelude.{◌≡◌, ◌<◌};
ghost use Rattle.plant_config.specs.Plant.{destinations_of};
ghost use Rattle.crosspoint_state.specs.Taps.{ArePointsOf};
ghost use Rattle.crosspoint_state.specs.Ties.{HaveValidTies};
ghost use Rattle.tie_pools.specs.Counts.{AreCountsOf};

use crosspoint_state::{Crosspoints, Spot, ties_stay_valid};
use plant_config::{Change, DestId, Plant, PoolId, SourceId, TieNo};
use std::alloc::{AllocError, Global};
use std::process::Abort;
use std::test::Fail;
use tie_pools::{Exhausted, Ties};

// One tie-line leads from router 0 to router 1. Of all sources there 2 and 3 stand for source 0, and 4 for source 1.
const PLANT: &[u8] = br#"
title = "Two routers"
level = [
    { matrix = 0, level = 0, sources = 2, destinations = 1 },
    { matrix = 1, level = 0, sources = 3, destinations = 2 },
]
remote = [
    { matrix = 1, level = 0, source = 0, from = 0, from_source = 0 },
    { matrix = 1, level = 0, source = 1, from = 0, from_source = 0 },
    { matrix = 1, level = 0, source = 2, from = 0, from_source = 1 },
]
pool = [{ from = 0, to = 1, level = 0, ties = 1 }]
panel = [{ device = 1, port = 9001 }]
"#;

// Plans a change of one destination, and makes it where the ties are enough.
fn take(
    plant: &Plant,
    ties: &mut Ties,
    points: &mut Crosspoints,
    dest: DestId,
    source: Option<SourceId>,
) -> Result<(), Exhausted>
    requires dest { dest < destinations_of plant.now }
    requires kept { ArePointsOf plant.now points.old }
    requires counts { AreCountsOf plant.now points.old.entries ties.old }
    requires valid { HaveValidTies plant.now points.old.entries }
    ensures kept { ArePointsOf plant.now points.new }
    ensures counts { AreCountsOf plant.now points.new.entries ties.new }
    ensures valid { HaveValidTies plant.now points.new.entries }
{
    let changes = [Change { dest, source }];
    let planned = ties.plan(plant, points, false, &changes)?;
    ties.commit(plant, points, planned, &changes);
    Ok(())
}

/// A destination, the source that it asks for, and the one that it carries then: the same, if a tie is left for it.
type Row = (u32, Option<u32>, Option<u32>);

// Sources 2 and 3 share the tie, and source 4 gets it once both are parked.
const ROWS: [Row; 6] = [
    (1, Some(2), Some(2)),
    (2, Some(4), None),
    (2, Some(3), Some(3)),
    (1, None, None),
    (2, None, None),
    (2, Some(4), Some(4)),
];

// The source of this number.
fn source_of(number: Option<u32>) -> Option<SourceId> {
    Some(SourceId::of(number?))
}

// That source over the tie.
fn over_the_tie(number: Option<u32>) -> Option<Spot> {
    Some(Spot {
        source: source_of(number)?,
        tie: Some(TieNo::of(0)),
    })
}

// How a request is answered: where no tie is left, a second one is wanted.
fn answer(is_left: bool) -> Result<(), Exhausted> {
    if is_left {
        return Ok(());
    }
    Err(Exhausted {
        pool: PoolId::of(0),
        wanted: 2,
        limit: 1,
    })
}

// A row is answered so.
fn is_answered(rt: &impl Abort, plant: &Plant, ties: &mut Ties, points: &mut Crosspoints, row: Row)
    requires kept { ArePointsOf plant.now points.old }
    requires counts { AreCountsOf plant.now points.old.entries ties.old }
    requires valid { HaveValidTies plant.now points.old.entries }
    ensures kept { ArePointsOf plant.now points.new }
    ensures counts { AreCountsOf plant.now points.new.entries ties.new }
    ensures valid { HaveValidTies plant.now points.new.entries }
{
    let (number, asked, carried) = row;
    assert!(rt; number < plant.destination_count());
    let dest = DestId::of(number);
    let taken = take(plant, ties, points, dest, source_of(asked));
    assert!(rt; taken == answer(asked == carried));
    assert!(rt; points.at(dest) == over_the_tie(carried));
}

// The rows are answered one after the other.
fn are_answered(rt: &impl Abort, plant: &Plant, ties: &mut Ties, points: &mut Crosspoints)
    requires kept { ArePointsOf plant.now points.old }
    requires counts { AreCountsOf plant.now points.old.entries ties.old }
    requires valid { HaveValidTies plant.now points.old.entries }
{
    for row in ROWS {
        is_answered(rt, plant, ties, points, row);
    }
}

// The same from the start of the plant on.
fn are_answered_first(rt: &impl Abort, alloc: Global, plant: &Plant) -> Result<(), AllocError> {
    let mut points = Crosspoints::new(alloc, plant)?;
    let mut ties = Ties::new(alloc, plant)?;
    // The ties are valid where nothing is carried.
    ties_stay_valid();
    are_answered(rt, plant, &mut ties, &mut points);
    Ok(())
}

#[test]
fn one_origin_comes_by_one_tie(rt: HostRuntime) -> Result<(), Fail> {
    let plant = Plant::from_toml(rt.alloc(), PLANT)?;
    Ok(are_answered_first(&rt, rt.alloc(), &plant)?)
}
