//! A list of changes is planned: whether the ties are enough for it, by what a panel may use of them.

ghost use Rattle.std.specs.Prelude.{◌≡◌, true, IfOk, IfErr};
ghost use Rattle.plant_config.specs.IsPlant.{IsPlant};
ghost use Rattle.crosspoint_state.specs.Crosspoints.{NamesOnce};
ghost use Rattle.crosspoint_state.specs.Applied.{put_all, are_enough};
ghost use Rattle.crosspoint_state.specs.Laws.{AreInside};
ghost use Rattle.tie_pools.specs.Counts.{AreCountsOf, AreWays};
ghost use Rattle.tie_pools.specs.DemandInside.{IsDemandFor, AreDemandOf, HasRoomFor};
ghost use Rattle.tie_pools.specs.DemandInside.{route_of, left, taken, moved};
ghost use Rattle.tie_pools.specs.Reserve.{are_enough_for};
ghost use Rattle.tie_pools.specs.ReserveInside.{IsOut, uses_all};
ghost use Rattle.tie_pools.specs.Plans.{IsExhausted};

use crate::demand::Demand;
use crate::planned::{Exhausted, Planned};
use crate::route::route_of;
use crate::ties::Ties;
use crate::ways::Ways;
use crosspoint_state::Crosspoints;
use plant_config::{Change, Plant, SourceId};

impl Ties {
    /// Whether the ties are enough for a panel's list of changes, with all new sources put in at once; else the lowest pool
    /// that it exceeds. For a master all ties count. Another panel may bring a pool's destinations to as many different
    /// origins as the pool has ties that it doesn't keep for masters, or as they carry already. The counts stay those
    /// of the crosspoints.
    #[inline(always)]
    pub fn plan(
        &mut self,
        plant: &Plant,
        points: &Crosspoints,
        master: bool,
        changes: &[Change],
    ) -> Result<Planned, Exhausted>
        requires dests { AreInside plant.now changes.now }
        requires once { NamesOnce changes.now }
        requires counts { AreCountsOf plant.now points.now.entries self.old }
        ensures permitted { IfOk result (λ _.
            are_enough_for plant.now points.now.entries master changes.now ≡ true) }
        ensures enough { IfOk result (λ _.
            are_enough plant.now points.now.entries changes.now ≡ true) }
        ensures exhausted { IfErr result
            (IsExhausted plant.now points.now.entries master changes.now) }
        ensures counts { AreCountsOf plant.now points.now.entries self.new }
    {
        // A plant without pools needs no ties.
        if plant.pools().is_empty() {
            return Ok(Planned::new());
        }
        if uses_all(plant, master) {
            return self.plan_by_ties(plant, points, changes);
        }
        self.plan_by_limits(plant, points, changes)
    }

    // The same for a master, or where no pool keeps ties.
    #[inline(never)]
    fn plan_by_ties(
        &mut self,
        plant: &Plant,
        points: &Crosspoints,
        changes: &[Change],
    ) -> Result<Planned, Exhausted>
        requires plant { IsPlant plant.now }
        requires dests { AreInside plant.now changes.now }
        requires once { NamesOnce changes.now }
        requires counts { AreCountsOf plant.now points.now.entries self.old }
        ensures enough { IfOk result (λ _.
            are_enough plant.now points.now.entries changes.now ≡ true) }
        ensures out { IfErr result (IsOut plant.now points.now.entries changes.now) }
        ensures counts { AreCountsOf plant.now points.now.entries self.new }
    {
        put_in(&mut self.demand, &self.ways, plant, points, changes);
        let over = self.demand.over();
        take_out(&mut self.demand, &self.ways, plant, points, changes);
        match over {
            Some(fault) => Err(fault),
            None => Ok(Planned::new()),
        }
    }
}

// Whether a panel may use all ties of each pool: it is a master, or no pool keeps any.
#[inline(always)]
fn uses_all(plant: &Plant, master: bool) -> bool
    ensures { result ≡ uses_all plant.now master }
{
    master || !plant.has_reserve()
}

// Puts the new sources of all changes that aren't idle into the demand.
#[inline(always)]
pub(crate) fn put_in(
    demand: &mut Demand,
    ways: &Ways,
    plant: &Plant,
    points: &Crosspoints,
    changes: &[Change],
)
    requires plant { IsPlant plant.now }
    requires ways { AreWays plant.now ways.now }
    requires dests { AreInside plant.now changes.now }
    requires once { NamesOnce changes.now }
    requires demand { AreDemandOf plant.now points.now.entries demand.old }
    ensures { AreDemandOf plant.now (put_all points.now.entries changes.now) demand.new }
{
    for change in changes {
        let source = points.source_at(change.dest);
        if source != change.source {
            shift(demand, ways, plant, source, change.source);
        }
    }
}

// Takes the new sources of all changes that aren't idle out of the demand again.
#[inline(always)]
pub(crate) fn take_out(
    demand: &mut Demand,
    ways: &Ways,
    plant: &Plant,
    points: &Crosspoints,
    changes: &[Change],
)
    requires plant { IsPlant plant.now }
    requires ways { AreWays plant.now ways.now }
    requires dests { AreInside plant.now changes.now }
    requires once { NamesOnce changes.now }
    requires demand { AreDemandOf plant.now (put_all points.now.entries changes.now) demand.old }
    ensures { AreDemandOf plant.now points.now.entries demand.new }
{
    for change in changes {
        let source = points.source_at(change.dest);
        if source != change.source {
            shift(demand, ways, plant, change.source, source);
        }
    }
}

// Moves the demand of a destination from one source to another.
fn shift(
    demand: &mut Demand,
    ways: &Ways,
    plant: &Plant,
    from: Option<SourceId>,
    to: Option<SourceId>,
)
    requires ways { AreWays plant.now ways.now }
    requires tables { IsDemandFor plant.now demand.old }
    requires room { HasRoomFor (left demand.old (route_of plant.now from)) (route_of plant.now to) }
    ensures { demand.new ≡ moved plant.now demand.old from to }
{
    leave(demand, ways, plant, from);
    take(demand, ways, plant, to);
}

// A destination leaves a source.
fn leave(demand: &mut Demand, ways: &Ways, plant: &Plant, source: Option<SourceId>)
    requires ways { AreWays plant.now ways.now }
    requires tables { IsDemandFor plant.now demand.old }
    ensures demand { demand.new ≡ left demand.old (route_of plant.now source) }
    ensures tables { IsDemandFor plant.now demand.new }
{
    if let Some(route) = route_of(ways, plant, source) {
        demand.unfeed(route.pool, route.way);
    }
}

// A destination takes a source.
fn take(demand: &mut Demand, ways: &Ways, plant: &Plant, source: Option<SourceId>)
    requires ways { AreWays plant.now ways.now }
    requires tables { IsDemandFor plant.now demand.old }
    requires room { HasRoomFor demand.old (route_of plant.now source) }
    ensures { demand.new ≡ taken demand.old (route_of plant.now source) }
{
    if let Some(route) = route_of(ways, plant, source) {
        demand.feed(route.pool, route.way);
    }
}
