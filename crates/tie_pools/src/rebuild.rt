//! The ties are counted anew.

ghost use Rattle.std.specs.Prelude.{◌≡◌, ◌+◌, ◌<◌};
ghost use Rattle.std.specs.FinMap.{empty};
ghost use Rattle.plant_config.specs.Limits.{tie_limit};
ghost use Rattle.plant_config.specs.Plant.{destinations_of};
ghost use Rattle.plant_config.specs.IsPlant.{IsPlant};
ghost use Rattle.crosspoint_state.specs.Ties.{HaveValidTies};
ghost use Rattle.tie_pools.specs.Counts.{AreCountsOf};
ghost use Rattle.tie_pools.specs.DemandInside.{HasRoom};
ghost use Rattle.tie_pools.specs.CommitInside.{HavePlaces, demand_of, come_to};
ghost use Rattle.tie_pools.specs.Rebuilt.{AreSomeCounts};
ghost use Rattle.tie_pools.specs.RebuiltInside.{carried_below};

use crate::route::{Route, route_of};
use crate::ties::Ties;
use crosspoint_state::Crosspoints;
use plant_config::{DestId, Plant, TieNo};

impl Ties {
    /// Counts the ties of these crosspoints, which are valid, whatever was counted before. It takes no memory.
    pub fn rebuild(&mut self, plant: &Plant, points: &Crosspoints)
        requires counts { AreSomeCounts plant.now self.old }
        requires valid { HaveValidTies plant.now points.now.entries }
        ensures { AreCountsOf plant.now points.now.entries self.new }
    {
        let destinations = plant.destination_count();
        self.clear(plant);
        for number in 0..destinations {
            self.count(plant, points, DestId::of(number));
        }
    }

    // Nothing is counted any more.
    fn clear(&mut self, plant: &Plant)
        requires plant { IsPlant plant.now }
        requires counts { AreSomeCounts plant.now self.old }
        ensures { AreCountsOf plant.now empty self.new }
    {
        self.demand.clear(plant);
        self.holdings.clear(plant);
    }

    // Counts what a destination carries, after those below it.
    fn count(&mut self, plant: &Plant, points: &Crosspoints, dest: DestId)
        requires plant { IsPlant plant.now }
        requires dest { dest < destinations_of plant.now }
        requires valid { HaveValidTies plant.now points.now.entries }
        requires counts { AreCountsOf plant.now (carried_below points.now.entries dest) self.old }
        ensures { AreCountsOf plant.now (carried_below points.now.entries (dest + 1)) self.new }
    {
        let Some(spot) = points.at(dest) else {
            return;
        };
        let Some(route) = route_of(&self.ways, plant, Some(spot.source)) else {
            return;
        };
        let Some(tie) = spot.tie else {
            return;
        };
        self.come_by(route, tie);
    }

    // A destination comes to a route, by this tie.
    pub(crate) fn come_by(&mut self, route: Route, tie: TieNo)
        requires places { HavePlaces self.old route }
        requires room { HasRoom (demand_of self.old) route }
        requires tie { tie < tie_limit }
        ensures { self.new ≡ come_to self.old route tie }
    {
        self.demand.feed(route.pool, route.way);
        self.holdings.hold(route.pool, route.way, tie);
    }
}
