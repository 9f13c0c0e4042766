//! How many ways of the pools are in use, and which pools have more in use than ties.

ghost use Rattle.std.specs.Prelude.{◌≡◌, ◌<◌, ◌≤◌, length, slice_index, IfOk};
ghost use Rattle.std.specs.FinMap.{empty};
ghost use Rattle.tie_pools.specs.Counts.{count_at, sizes_of};
ghost use Rattle.tie_pools.specs.CountsInside.{one_more, one_fewer};
ghost use Rattle.tie_pools.specs.DemandInside.{over};
ghost use Rattle.tie_pools.specs.RebuiltInside.{AreCleared};

use crate::counts::{clear, count_fewer, count_more, count_of};
use crate::planned::Exhausted;
use number_tables::{NumberMap, SmallSet};
use plant_config::{MAX_DESTINATIONS, Plant, PoolId};
use std::alloc::{AllocError, Global};
use std::marker::Model;

/// How many ways of each pool are in use, and how many ties it has. The pools with more ways than ties are kept, so that
/// the lowest of them is found at once.
#[derive(Debug, Drop)]
pub(crate) struct InUse {
    used: NumberMap<u32>,
    sizes: Vec<u32>,
    over: SmallSet,
}

impl Model for InUse {
    ghost use Rattle.tie_pools.specs.CountsInside.{InUse, in_use_code};
    ghost use Rattle.tie_pools.specs.DemandInside.{KeepsOver};

    ghost Value = { InUse };

    ghost coded = { in_use_code };

    ghost view = { λ in_use. record { used = in_use.used; sizes = in_use.sizes.items } };

    ghost invariant = { λ in_use. KeepsOver in_use.used in_use.sizes.items in_use.over };
}

impl InUse {
    /// No way is in use, and there is room for all pools of a plant.
    pub(crate) fn new(alloc: Global, plant: &Plant) -> Result<InUse, AllocError>
        ensures used { IfOk result (λ in_use. in_use.used.entries ≡ empty) }
        ensures room { IfOk result (λ in_use. in_use.used.room ≡ length plant.now.pools) }
        ensures sizes { IfOk result (λ in_use. in_use.sizes ≡ sizes_of plant.now) }
    {
        let used = NumberMap::new(alloc, plant.pools().len())?;
        let sizes = sizes_of(alloc, plant)?;
        let over = SmallSet::new();
        Ok(InUse { used, sizes, over })
    }

    /// One more way of a pool is in use.
    pub(crate) fn more(&mut self, pool: PoolId)
        requires pool { pool < self.old.used.room }
        requires used { count_at self.old.used.entries pool ≤ MAX_DESTINATIONS }
        ensures { self.new ≡ one_more self.old pool }
    {
        let size = size_at(&self.sizes, pool.get());
        count_more(&mut self.used, pool.get());
        if size < count_of(&self.used, pool.get()) {
            self.over.insert(pool.get());
        }
    }

    /// One way of a pool fewer is in use.
    pub(crate) fn fewer(&mut self, pool: PoolId)
        requires { pool < self.old.used.room }
        ensures { self.new ≡ one_fewer self.old pool }
    {
        let size = size_at(&self.sizes, pool.get());
        count_fewer(&mut self.used, pool.get());
        if count_of(&self.used, pool.get()) <= size {
            self.over.remove(pool.get());
        }
    }

    /// No way of a pool is in use any more.
    pub(crate) fn clear(&mut self)
        ensures used { AreCleared self.old.used.entries self.new.used.entries self.old.used.room }
        ensures room { self.new.used.room ≡ self.old.used.room }
        ensures sizes { self.new.sizes ≡ self.old.sizes }
    {
        let pools = self.sizes.len() as u32;
        clear(&mut self.used, pools);
        self.over = SmallSet::new();
    }

    /// How many ways of a pool are in use.
    pub(crate) fn count(&self, pool: PoolId) -> u32
        ensures { result ≡ count_at self.now.used.entries pool }
    {
        count_of(&self.used, pool.get())
    }

    /// The lowest pool that has more ways in use than it has ties.
    pub(crate) fn over(&self) -> Option<Exhausted>
        ensures { result ≡ over self.now }
    {
        let number = self.over.lowest()?;
        Some(Exhausted {
            pool: PoolId::of(number),
            wanted: count_of(&self.used, number),
            limit: size_at(&self.sizes, number),
        })
    }
}

// How many ties each pool of a plant has.
fn sizes_of(alloc: Global, plant: &Plant) -> Result<Vec<u32>, AllocError>
    ensures { IfOk result (λ sizes. sizes.items ≡ sizes_of plant.now) }
{
    let pools = plant.pools();
    let mut sizes = Vec::with_capacity(alloc, pools.len())?;
    for pool in pools {
        sizes.push(pool.ties)?;
    }
    Ok(sizes)
}

// The size of a pool, 0 where there is none.
fn size_at(sizes: &[u32], pool: u32) -> u32
    ensures { result ≡ slice_index sizes.now pool }
{
    sizes.get(pool as usize).copied().unwrap_or(0)
}
