//! A planned list of changes is made.

ghost use Rattle.std.specs.Prelude.{◌≡◌, ◌<◌, true, All, IfSome};
ghost use Rattle.std.specs.Prelude.{Option, None, Some};
ghost use Rattle.std.specs.FinMap.{get, remove};
ghost use Rattle.plant_config.specs.Limits.{tie_limit};
ghost use Rattle.plant_config.specs.Plant.{destinations_of};
ghost use Rattle.plant_config.specs.IsPlant.{IsPlant};
ghost use Rattle.crosspoint_state.specs.declared.spot.Spot.{Spot};
ghost use Rattle.crosspoint_state.specs.Crosspoints.{NamesOnce};
ghost use Rattle.crosspoint_state.specs.Taps.{ArePointsOf};
ghost use Rattle.crosspoint_state.specs.Ties.{HaveValidTies};
ghost use Rattle.crosspoint_state.specs.Applied.{given, applied, untied, put_all, are_enough};
ghost use Rattle.crosspoint_state.specs.Laws.{AreInside};
ghost use Rattle.tie_pools.specs.Counts.{AreCountsOf};
ghost use Rattle.tie_pools.specs.DemandInside.{HasRoom};
ghost use Rattle.tie_pools.specs.HoldingsInside.{tie_for};
ghost use Rattle.tie_pools.specs.CommitInside.{released_one, released_each};
ghost use Rattle.tie_pools.specs.CommitInside.{given_one, given_each, IsReady, AreReady};
ghost use Rattle.tie_pools.specs.CommitInside.{HavePlaces};
ghost use Rattle.tie_pools.specs.CommitInside.{demand_of, holdings_of, left_from, come_to};

use crate::planned::Planned;
use crate::route::{Route, route_of};
use crate::ties::Ties;
use crosspoint_state::{Crosspoints, Spot};
use plant_config::{Change, DestId, Plant, SourceId, TieNo};

impl Ties {
    /// Makes a planned list of changes as one. All destinations that get another source are released, and then each is given
    /// its source in the order of the list: by the tie that brings its origin already, else by the lowest free one. A
    /// destination of an idle change keeps its tie.
    #[inline]
    pub fn commit(
        &mut self,
        plant: &Plant,
        points: &mut Crosspoints,
        planned: Planned,
        changes: &[Change],
    )
        requires dests { AreInside plant.now changes.now }
        requires once { NamesOnce changes.now }
        requires kept { ArePointsOf plant.now points.old }
        requires counts { AreCountsOf plant.now points.old.entries self.old }
        requires valid { HaveValidTies plant.now points.old.entries }
        requires enough { are_enough plant.now points.old.entries changes.now ≡ true }
        ensures made { points.new.entries ≡ applied plant.now points.old.entries changes.now }
        ensures kept { ArePointsOf plant.now points.new }
        ensures counts { AreCountsOf plant.now points.new.entries self.new }
        ensures valid { HaveValidTies plant.now points.new.entries }
    {
        drop(planned);
        // On a plant without pools no source comes by a tie.
        if plant.pools().is_empty() {
            put_all(plant, points, changes);
            return;
        }
        self.make_all(plant, points, changes);
    }

    // The same, whatever pools the plant has.
    #[inline(never)]
    fn make_all(&mut self, plant: &Plant, points: &mut Crosspoints, changes: &[Change])
        requires plant { IsPlant plant.now }
        requires dests { AreInside plant.now changes.now }
        requires once { NamesOnce changes.now }
        requires kept { ArePointsOf plant.now points.old }
        requires counts { AreCountsOf plant.now points.old.entries self.old }
        requires valid { HaveValidTies plant.now points.old.entries }
        requires enough { are_enough plant.now points.old.entries changes.now ≡ true }
        ensures made { points.new.entries ≡ applied plant.now points.old.entries changes.now }
        ensures kept { ArePointsOf plant.now points.new }
        ensures counts { AreCountsOf plant.now points.new.entries self.new }
        ensures valid { HaveValidTies plant.now points.new.entries }
    {
        self.release_all(plant, points, changes);
        self.give_all(plant, points, changes);
    }

    // Releases the destination of each change that isn't idle.
    fn release_all(&mut self, plant: &Plant, points: &mut Crosspoints, changes: &[Change])
        requires plant { IsPlant plant.now }
        requires dests { AreInside plant.now changes.now }
        requires kept { ArePointsOf plant.now points.old }
        requires counts { AreCountsOf plant.now points.old.entries self.old }
        requires valid { HaveValidTies plant.now points.old.entries }
        ensures points { points.new.entries ≡ released_each points.old.entries changes.now }
        ensures kept { ArePointsOf plant.now points.new }
        ensures counts { AreCountsOf plant.now points.new.entries self.new }
    {
        for index in 0..changes.len() {
            self.release(plant, points, &changes[index]);
        }
    }

    // Gives the destination of each change its source, where it was released.
    fn give_all(&mut self, plant: &Plant, points: &mut Crosspoints, changes: &[Change])
        requires plant { IsPlant plant.now }
        requires dests { AreInside plant.now changes.now }
        requires once { NamesOnce changes.now }
        requires ready { AreReady points.old.entries changes.now }
        requires kept { ArePointsOf plant.now points.old }
        requires counts { AreCountsOf plant.now points.old.entries self.old }
        requires valid { HaveValidTies plant.now
            (given_each plant.now points.old.entries changes.now) }
        ensures points { points.new.entries
            ≡ given_each plant.now points.old.entries changes.now }
        ensures kept { ArePointsOf plant.now points.new }
        ensures counts { AreCountsOf plant.now points.new.entries self.new }
    {
        for index in 0..changes.len() {
            self.give(plant, points, &changes[index]);
        }
    }

    // Releases the destination of a change that isn't idle.
    fn release(&mut self, plant: &Plant, points: &mut Crosspoints, change: &Change)
        requires plant { IsPlant plant.now }
        requires dest { change.now.dest < destinations_of plant.now }
        requires kept { ArePointsOf plant.now points.old }
        requires counts { AreCountsOf plant.now points.old.entries self.old }
        requires valid { HaveValidTies plant.now points.old.entries }
        ensures points { points.new.entries ≡ released_one points.old.entries change.now }
        ensures kept { ArePointsOf plant.now points.new }
        ensures counts { AreCountsOf plant.now points.new.entries self.new }
        ensures valid { HaveValidTies plant.now points.new.entries }
    {
        if !points.is_idle(change) {
            self.park(plant, points, change.dest);
        }
    }

    // Gives the destination of a change that isn't idle its source.
    fn give(&mut self, plant: &Plant, points: &mut Crosspoints, change: &Change)
        requires plant { IsPlant plant.now }
        requires dest { change.now.dest < destinations_of plant.now }
        requires ready { IsReady points.old.entries change.now }
        requires kept { ArePointsOf plant.now points.old }
        requires counts { AreCountsOf plant.now points.old.entries self.old }
        requires valid { HaveValidTies plant.now
            (given_one plant.now points.old.entries change.now) }
        ensures points { points.new.entries ≡ given_one plant.now points.old.entries change.now }
        ensures kept { ArePointsOf plant.now points.new }
        ensures counts { AreCountsOf plant.now points.new.entries self.new }
    {
        if points.is_idle(change) {
            return;
        }
        let Some(source) = change.source else {
            return;
        };
        self.bring(plant, points, change.dest, source);
    }

    // Takes away what a destination carries.
    fn park(&mut self, plant: &Plant, points: &mut Crosspoints, dest: DestId)
        requires plant { IsPlant plant.now }
        requires dest { dest < destinations_of plant.now }
        requires kept { ArePointsOf plant.now points.old }
        requires counts { AreCountsOf plant.now points.old.entries self.old }
        requires valid { HaveValidTies plant.now points.old.entries }
        ensures points { points.new.entries ≡ remove points.old.entries dest }
        ensures kept { ArePointsOf plant.now points.new }
        ensures counts { AreCountsOf plant.now points.new.entries self.new }
        ensures valid { HaveValidTies plant.now points.new.entries }
    {
        let Some(spot) = points.at(dest) else {
            return;
        };
        points.set(plant, dest, None);
        let Some(route) = route_of(&self.ways, plant, Some(spot.source)) else {
            return;
        };
        let Some(tie) = spot.tie else {
            return;
        };
        self.leave(route, tie);
    }

    // Brings a source to a destination that carries nothing.
    fn bring(&mut self, plant: &Plant, points: &mut Crosspoints, dest: DestId, source: SourceId)
        requires plant { IsPlant plant.now }
        requires dest { dest < destinations_of plant.now }
        requires parked { get points.old.entries dest ≡ None }
        requires kept { ArePointsOf plant.now points.old }
        requires counts { AreCountsOf plant.now points.old.entries self.old }
        requires valid { HaveValidTies plant.now
            (given plant.now points.old.entries dest (Some source)) }
        ensures points { points.new.entries
            ≡ given plant.now points.old.entries dest (Some source) }
        ensures kept { ArePointsOf plant.now points.new }
        ensures counts { AreCountsOf plant.now points.new.entries self.new }
    {
        let Some(route) = route_of(&self.ways, plant, Some(source)) else {
            points.set(plant, dest, Some(Spot { source, tie: None }));
            return;
        };
        let tie = self.come(route);
        points.set(plant, dest, Some(Spot { source, tie }));
    }

    // A destination leaves a route, whose tie is this.
    fn leave(&mut self, route: Route, tie: TieNo)
        requires places { HavePlaces self.old route }
        requires tie { tie < tie_limit }
        ensures { self.new ≡ left_from self.old route tie }
    {
        self.demand.unfeed(route.pool, route.way);
        let fed = self.demand.feeds(route.way);
        if !fed {
            self.holdings.free(route.pool, route.way, tie);
        }
    }

    // A destination comes to a route, by the tie that is the answer.
    fn come(&mut self, route: Route) -> Option<TieNo>
        requires places { HavePlaces self.old route }
        requires room { HasRoom (demand_of self.old) route }
        requires tie { IfSome (tie_for (holdings_of self.old) route.pool route.way)
            (λ tie. tie < tie_limit) }
        ensures tie { result ≡ tie_for (holdings_of self.old) route.pool route.way }
        ensures counts { IfSome result (λ tie. self.new ≡ come_to self.old route tie) }
    {
        let tie = self.holdings.tie_for(route.pool, route.way)?;
        self.demand.feed(route.pool, route.way);
        self.holdings.hold(route.pool, route.way, tie);
        Some(tie)
    }
}

// Puts the sources of all changes in by no ties.
fn put_all(plant: &Plant, points: &mut Crosspoints, changes: &[Change])
    requires dests { AreInside plant.now changes.now }
    requires kept { ArePointsOf plant.now points.old }
    ensures made { points.new.entries ≡ put_all points.old.entries changes.now }
    ensures kept { ArePointsOf plant.now points.new }
{
    for change in changes {
        points.set(plant, change.dest, untied(change.source));
    }
}

// A source by no tie, or nothing.
fn untied(source: Option<SourceId>) -> Option<Spot>
    ensures { result ≡ untied source }
{
    let source = source?;
    Some(Spot { source, tie: None })
}
