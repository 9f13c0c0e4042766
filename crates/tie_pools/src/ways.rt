//! The ways by which remote sources come.

ghost use Rattle.std.specs.Prelude.{◌≡◌, ◌+◌, ◌<◌, IfOk, OnOk, unwrap_or};
ghost use Rattle.std.specs.Ordering.{nat_cmp};
ghost use Rattle.std.specs.BTreeMap as tree;
ghost use Rattle.std.specs.FinMap.{get};
ghost use Rattle.plant_config.specs.Plant.{sources_of};
ghost use Rattle.plant_config.specs.IsPlant.{IsPlant};
ghost use Rattle.tie_pools.specs.Ways.{source_way};
ghost use Rattle.tie_pools.specs.WaysInside.{way_number, AreLowest, ComesTo};
ghost use Rattle.tie_pools.specs.Counts.{AreWays};

use number_tables::NumberMap;
use plant_config::{MAX_SOURCES, Plant, PoolId, SourceId};
use std::alloc::{AllocError, Global};
use std::collections::BTreeMap;
use std::marker::Model;

/// The way of each remote source: the lowest source that comes by the same pool and stands for the same origin.
#[derive(Debug, Drop)]
pub(crate) struct Ways {
    ways: NumberMap<SourceId>,
}

impl Model for Ways {
    ghost use Rattle.std.specs.Prelude.{ℕ, ◌≡◌};
    ghost use Rattle.std.specs.Ordering.{nat_cmp};
    ghost use Rattle.std.specs.Coded.{coded_ℕ};
    ghost use Rattle.std.specs.FinMap.{code};
    ghost use Rattle.number_tables.specs.Table.{Entries};

    ghost Value = { Entries ℕ };

    ghost coded = { code {R = nat_cmp} coded_ℕ coded_ℕ };

    ghost view = { λ ways. ways.ways.entries };
}

impl Ways {
    // The ways of a plant's sources.
    pub(crate) fn new(alloc: Global, plant: &Plant) -> Result<Ways, AllocError>
        ensures { IfOk result (AreWays plant.now) }
    {
        let sources = plant.source_count();
        let mut ways = NumberMap::new(alloc, sources as usize)?;
        let mut lowest = BTreeMap::new(alloc);
        for number in 0..sources {
            let way = way_for(plant, SourceId::of(number), &mut lowest)?;
            ways.set(number, way);
        }
        Ok(Ways { ways })
    }

    // The way of a source, `None` where it is local.
    pub(crate) fn get(&self, source: SourceId) -> Option<SourceId>
        ensures { result ≡ get self.now source }
    {
        self.ways.get(source.get())
    }
}

// The lowest source of each pool and origin so far.
type Lowest = BTreeMap<u32, SourceId>;

// The way of the source that is next after those so far.
fn way_for(
    plant: &Plant,
    source: SourceId,
    lowest: &mut Lowest,
) -> Result<Option<SourceId>, AllocError>
    requires plant { IsPlant plant.now }
    requires source { source < sources_of plant.now }
    requires lowest { AreLowest plant.now source lowest.old }
    ensures way { IfOk result (λ way. way ≡ source_way plant.now source) }
    ensures lowest { OnOk result (AreLowest plant.now (source + 1) lowest.new) }
{
    match plant.pool_of(source) {
        Some(pool) => {
            let number = way_number(pool, plant.origin(source));
            let first = first_at(number, source, lowest)?;
            Ok(Some(first))
        }
        None => Ok(None),
    }
}

// A number of its own for each pool and origin.
fn way_number(pool: PoolId, origin: SourceId) -> u32
    requires pool { pool < 256 }
    requires origin { origin < MAX_SOURCES }
    ensures { result ≡ way_number pool origin }
{
    pool.get() * MAX_SOURCES + origin.get()
}

// The source that came to a number first: this one where there is none.
fn first_at(number: u32, source: SourceId, lowest: &mut Lowest) -> Result<SourceId, AllocError>
    ensures first { IfOk result
        (λ first. first ≡ unwrap_or (tree.get nat_cmp lowest.old number) source) }
    ensures lowest { OnOk result (ComesTo lowest.old lowest.new number source) }
{
    if let Some(first) = lowest.get(&number) {
        return Ok(*first);
    }
    lowest.insert(number, source)?;
    Ok(source)
}
