//! The limits of pools that keep ties for masters, and which pool a list of changes brings above its limit.

ghost use Rattle.std.specs.Prelude.{◌≡◌, ◌<◌, true, false, None, length, IfOk, IfErr};
ghost use Rattle.plant_config.specs.IsPlant.{IsPlant};
ghost use Rattle.crosspoint_state.specs.Crosspoints.{NamesOnce};
ghost use Rattle.crosspoint_state.specs.Laws.{AreInside};
ghost use Rattle.tie_pools.specs.Counts.{AreCountsOf, AreWays};
ghost use Rattle.tie_pools.specs.Plans.{IsExhausted};
ghost use Rattle.tie_pools.specs.Reserve.{are_enough_for};
ghost use Rattle.tie_pools.specs.ReserveInside.{limit_by, over_limit, lower_of, lowest_over};
ghost use Rattle.tie_pools.specs.ReserveInside.{AreLimited};

use crate::demand::Demand;
use crate::plan::{put_in, take_out};
use crate::planned::{Exhausted, Planned};
use crate::route::route_of;
use crate::ties::Ties;
use crate::ways::Ways;
use crosspoint_state::Crosspoints;
use plant_config::{Change, Plant, PoolId};

// The most pools of a plant.
const POOLS: usize = 256;

// The limits of the pools by which the new sources of some changes come. What stands at another pool says nothing.
type PoolLimits = [u32; POOLS];

impl Ties {
    /// Whether the ties are enough for a list of a panel that is no master. Only a pool by which a new source comes can get
    /// more origins, so no other one's limit is looked at.
    #[inline(never)]
    pub(crate) fn plan_by_limits(
        &mut self,
        plant: &Plant,
        points: &Crosspoints,
        changes: &[Change],
    ) -> Result<Planned, Exhausted>
        requires plant { IsPlant plant.now }
        requires dests { AreInside plant.now changes.now }
        requires once { NamesOnce changes.now }
        requires counts { AreCountsOf plant.now points.now.entries self.old }
        ensures permitted { IfOk result (λ _.
            are_enough_for plant.now points.now.entries false changes.now ≡ true) }
        ensures exhausted { IfErr result
            (IsExhausted plant.now points.now.entries false changes.now) }
        ensures counts { AreCountsOf plant.now points.now.entries self.new }
    {
        let limits = limits_of(&self.demand, &self.ways, plant, changes);
        put_in(&mut self.demand, &self.ways, plant, points, changes);
        let held = lowest_over(&self.demand, &self.ways, plant, &limits, changes);
        let over = self.demand.over();
        take_out(&mut self.demand, &self.ways, plant, points, changes);
        match lower_of(held, over) {
            Some(fault) => Err(fault),
            None => Ok(Planned::new()),
        }
    }
}

// These limits for a panel that is no master, by the ways that are in use now.
fn limits_of(demand: &Demand, ways: &Ways, plant: &Plant, changes: &[Change]) -> PoolLimits
    requires plant { IsPlant plant.now }
    requires ways { AreWays plant.now ways.now }
    ensures { AreLimited plant.now demand.now result changes.now }
{
    let mut limits = [0; POOLS];
    for change in changes {
        if let Some(route) = route_of(ways, plant, change.source) {
            limits[route.pool.get() as usize] = limit_by(demand, plant, route.pool);
        }
    }
    limits
}

// The limit of a pool for a panel that is no master: the ties that aren't kept, or as many as are in use already.
fn limit_by(demand: &Demand, plant: &Plant, pool: PoolId) -> u32
    requires { pool < length plant.now.pools }
    ensures { result ≡ limit_by plant.now demand.now pool }
{
    let found = plant.pool(pool);
    let unkept = found.ties.saturating_sub(found.reserve);
    found.ties.min(unkept.max(demand.ways_in_use(pool)))
}

// The lowest pool that has more ways in use than its limit, of those by which the new sources of a list come.
fn lowest_over(
    demand: &Demand,
    ways: &Ways,
    plant: &Plant,
    limits: &PoolLimits,
    changes: &[Change],
) -> Option<Exhausted>
    requires plant { IsPlant plant.now }
    requires ways { AreWays plant.now ways.now }
    ensures { result ≡ lowest_over plant.now demand.now limits.now None changes.now }
{
    let mut lowest = None;
    for change in changes {
        if let Some(route) = route_of(ways, plant, change.source) {
            lowest = lower_of(lowest, over_limit(demand, limits, route.pool));
        }
    }
    lowest
}

// A pool that has more ways in use than its limit.
fn over_limit(demand: &Demand, limits: &PoolLimits, pool: PoolId) -> Option<Exhausted>
    requires { pool < 256 }
    ensures { result ≡ over_limit demand.now limits.now pool }
{
    let limit = limits[pool.get() as usize];
    let wanted = demand.ways_in_use(pool);
    if limit < wanted {
        Some(Exhausted {
            pool,
            wanted,
            limit,
        })
    } else {
        None
    }
}

// Of two pools the lower one, and the first where both are one.
fn lower_of(first: Option<Exhausted>, second: Option<Exhausted>) -> Option<Exhausted>
    ensures { result ≡ lower_of first second }
{
    let Some(one) = first else {
        return second;
    };
    let Some(other) = second else {
        return Some(one);
    };
    if other.pool.get() < one.pool.get() {
        Some(other)
    } else {
        Some(one)
    }
}
