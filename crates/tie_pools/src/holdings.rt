//! Which ties the ways hold.

ghost use Rattle.std.specs.Prelude.{◌≡◌, ◌<◌, ◌≤◌, length, IfOk};
ghost use Rattle.std.specs.FinMap.{empty, get};
ghost use Rattle.number_tables.specs.Numbers.{lowest};
ghost use Rattle.plant_config.specs.Limits.{tie_limit};
ghost use Rattle.plant_config.specs.Plant.{sources_of};
ghost use Rattle.tie_pools.specs.Counts.{free_of};
ghost use Rattle.tie_pools.specs.HoldingsInside.{all_free, ties_below, holding, freed, tie_for};
ghost use Rattle.tie_pools.specs.RebuiltInside.{AreCleared, AreFreeBelow};

use crate::counts::clear;
use number_tables::{NumberMap, SmallSet};
use plant_config::{Plant, PoolId, SourceId, TieNo};
use std::alloc::{AllocError, Global};
use std::marker::Model;

/// The tie of each way that feeds some destination, and the free ties of each pool, of which the lowest is found at once.
#[derive(Debug, Drop)]
pub(crate) struct Holdings {
    ties: NumberMap<TieNo>,
    free: Vec<SmallSet>,
}

impl Model for Holdings {
    ghost use Rattle.tie_pools.specs.HoldingsInside.{Holdings, holdings_code};

    ghost Value = { Holdings };

    ghost coded = { holdings_code };

    ghost view = { λ holdings. record { ties = holdings.ties; free = holdings.free.items } };
}

impl Holdings {
    // No way has a tie: all ties of the plant's pools are free, and there is room for all ways.
    pub(crate) fn new(alloc: Global, plant: &Plant) -> Result<Holdings, AllocError>
        ensures ties { IfOk result (λ holdings. holdings.ties.entries ≡ empty) }
        ensures room { IfOk result (λ holdings. holdings.ties.room ≡ sources_of plant.now) }
        ensures free { IfOk result (λ holdings. holdings.free ≡ all_free plant.now) }
    {
        let ties = NumberMap::new(alloc, plant.source_count() as usize)?;
        let free = all_free(alloc, plant)?;
        Ok(Holdings { ties, free })
    }

    // No way has a tie any more: all ties of the plant's pools are free.
    pub(crate) fn clear(&mut self, plant: &Plant)
        requires ways { self.old.ties.room ≡ sources_of plant.now }
        requires pools { length self.old.free ≡ length plant.now.pools }
        ensures ties { AreCleared self.old.ties.entries self.new.ties.entries
            (sources_of plant.now) }
        ensures ways { self.new.ties.room ≡ sources_of plant.now }
        ensures pools { length self.new.free ≡ length plant.now.pools }
        ensures free { AreFreeBelow plant.now self.new.free (length plant.now.pools) }
    {
        clear(&mut self.ties, plant.source_count());
        self.release(plant);
    }

    // All ties of the plant's pools are free.
    fn release(&mut self, plant: &Plant)
        requires { length self.old.free ≡ length plant.now.pools }
        ensures ties { self.new.ties ≡ self.old.ties }
        ensures pools { length self.new.free ≡ length plant.now.pools }
        ensures free { AreFreeBelow plant.now self.new.free (length plant.now.pools) }
    {
        free_all(plant, &mut self.free);
    }

    // The tie of a way, `None` where it has none.
    fn tie_of(&self, way: SourceId) -> Option<TieNo>
        ensures { result ≡ get self.now.ties.entries way }
    {
        self.ties.get(way.get())
    }

    // The lowest free tie of a pool, `None` where each is held.
    fn lowest_free(&self, pool: PoolId) -> Option<TieNo>
        requires { pool < length self.now.free }
        ensures { result ≡ lowest (free_of self.now.free pool) }
    {
        let free = &self.free[pool.get() as usize];
        let number = free.lowest()?;
        Some(TieNo::of(number))
    }

    // The tie by which a way is to come: the one that it has, or else the lowest free one.
    pub(crate) fn tie_for(&self, pool: PoolId, way: SourceId) -> Option<TieNo>
        requires { pool < length self.now.free }
        ensures { result ≡ tie_for self.now pool way }
    {
        match self.tie_of(way) {
            Some(tie) => Some(tie),
            None => self.lowest_free(pool),
        }
    }

    // A way holds a tie of its pool.
    pub(crate) fn hold(&mut self, pool: PoolId, way: SourceId, tie: TieNo)
        requires pool { pool < length self.old.free }
        requires way { way < self.old.ties.room }
        requires tie { tie < tie_limit }
        ensures { self.new ≡ holding self.old pool way tie }
    {
        self.ties.set(way.get(), Some(tie));
        let free = &mut self.free[pool.get() as usize];
        free.remove(tie.get());
    }

    // A way holds its tie no longer.
    pub(crate) fn free(&mut self, pool: PoolId, way: SourceId, tie: TieNo)
        requires pool { pool < length self.old.free }
        requires way { way < self.old.ties.room }
        requires tie { tie < tie_limit }
        ensures { self.new ≡ freed self.old pool way tie }
    {
        self.ties.set(way.get(), None);
        let free = &mut self.free[pool.get() as usize];
        free.insert(tie.get());
    }
}

// All ties of each pool of a plant.
fn all_free(alloc: Global, plant: &Plant) -> Result<Vec<SmallSet>, AllocError>
    ensures { IfOk result (λ free. free.items ≡ all_free plant.now) }
{
    let pools = plant.pools();
    let mut free = Vec::with_capacity(alloc, pools.len())?;
    for pool in pools {
        free.push(ties_below(pool.ties))?;
    }
    Ok(free)
}

// All ties of each pool of a plant are free.
fn free_all(plant: &Plant, free: &mut [SmallSet])
    requires { length free.old ≡ length plant.now.pools }
    ensures pools { length free.new ≡ length plant.now.pools }
    ensures free { AreFreeBelow plant.now free.new (length plant.now.pools) }
{
    let pools = plant.pools();
    for number in 0..pools.len() {
        free[number] = ties_below(pools[number].ties);
    }
}

// The ties of a pool of this size.
fn ties_below(size: u32) -> SmallSet
    requires { size ≤ tie_limit }
    ensures { result ≡ ties_below size }
{
    let mut ties = SmallSet::new();
    for tie in 0..size {
        ties.insert(tie);
    }
    ties
}
