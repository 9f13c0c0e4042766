//! How many destinations the ways feed, and how many ways of the pools are in use.

ghost use Rattle.std.specs.Prelude.{◌≡◌, ◌<◌, ◌≤◌, nat_lt, IfOk};
ghost use Rattle.std.specs.FinMap.{empty};
ghost use Rattle.tie_pools.specs.Counts.{count_at};
ghost use Rattle.tie_pools.specs.CountsInside.{fed_more, fed_less};
ghost use Rattle.tie_pools.specs.DemandInside.{IsDemandFor, in_use_of, over};
ghost use Rattle.tie_pools.specs.RebuiltInside.{AreCleared};

use crate::counts::{clear, count_fewer, count_more, count_of};
use crate::in_use::InUse;
use crate::planned::Exhausted;
use number_tables::NumberMap;
use plant_config::{MAX_DESTINATIONS, Plant, PoolId, SourceId};
use std::alloc::{AllocError, Global};
use std::marker::Model;

/// How many destinations each way feeds, and how many ways of each pool feed some.
#[derive(Debug, Drop)]
pub(crate) struct Demand {
    fed: NumberMap<u32>,
    in_use: InUse,
}

impl Model for Demand {
    ghost use Rattle.tie_pools.specs.CountsInside.{Demand, demand_code};

    ghost Value = { Demand };

    ghost coded = { demand_code };

    ghost view = { λ demand. record {
      fed = demand.fed;
      used = demand.in_use.used;
      sizes = demand.in_use.sizes;
    } };
}

impl Demand {
    /// No way feeds a destination, and there is room for all ways and pools of a plant.
    pub(crate) fn new(alloc: Global, plant: &Plant) -> Result<Demand, AllocError>
        ensures fed { IfOk result (λ demand. demand.fed.entries ≡ empty) }
        ensures used { IfOk result (λ demand. demand.used.entries ≡ empty) }
        ensures room { IfOk result (IsDemandFor plant.now) }
    {
        let fed = NumberMap::new(alloc, plant.source_count() as usize)?;
        let in_use = InUse::new(alloc, plant)?;
        Ok(Demand { fed, in_use })
    }

    /// One more destination is fed by a way of a pool.
    pub(crate) fn feed(&mut self, pool: PoolId, way: SourceId)
        requires pool { pool < self.old.used.room }
        requires way { way < self.old.fed.room }
        requires fed { count_at self.old.fed.entries way ≤ MAX_DESTINATIONS }
        requires used { count_at self.old.used.entries pool ≤ MAX_DESTINATIONS }
        ensures { self.new ≡ fed_more self.old pool way }
    {
        if count_of(&self.fed, way.get()) == 0 {
            self.in_use.more(pool);
        }
        count_more(&mut self.fed, way.get());
    }

    /// One destination fewer is fed by a way of a pool.
    pub(crate) fn unfeed(&mut self, pool: PoolId, way: SourceId)
        requires pool { pool < self.old.used.room }
        requires way { way < self.old.fed.room }
        ensures { self.new ≡ fed_less self.old pool way }
    {
        if count_of(&self.fed, way.get()) == 1 {
            self.in_use.fewer(pool);
        }
        count_fewer(&mut self.fed, way.get());
    }

    /// No way feeds a destination any more.
    pub(crate) fn clear(&mut self, plant: &Plant)
        requires { IsDemandFor plant.now self.old }
        ensures fed { AreCleared self.old.fed.entries self.new.fed.entries self.old.fed.room }
        ensures used { AreCleared self.old.used.entries self.new.used.entries self.old.used.room }
        ensures room { IsDemandFor plant.now self.new }
    {
        clear(&mut self.fed, plant.source_count());
        self.in_use.clear();
    }

    /// Whether a way feeds a destination.
    pub(crate) fn feeds(&self, way: SourceId) -> bool
        ensures { result ≡ nat_lt 0 (count_at self.now.fed.entries way) }
    {
        0 < count_of(&self.fed, way.get())
    }

    /// How many ways of a pool are in use.
    pub(crate) fn ways_in_use(&self, pool: PoolId) -> u32
        ensures { result ≡ count_at self.now.used.entries pool }
    {
        self.in_use.count(pool)
    }

    /// The lowest pool that has more ways in use than it has ties.
    pub(crate) fn over(&self) -> Option<Exhausted>
        ensures { result ≡ over (in_use_of self.now) }
    {
        self.in_use.over()
    }
}
