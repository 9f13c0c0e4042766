//! By which pool and way a remote source comes.

ghost use Rattle.std.specs.Prelude.{◌≡◌, ◌<◌, length, IfSome};
ghost use Rattle.plant_config.specs.Sources.{pool_of};
ghost use Rattle.plant_config.specs.IsPlant.{IsPlant};
ghost use Rattle.tie_pools.specs.Counts.{AreWays};
ghost use Rattle.tie_pools.specs.DemandInside.{route_of, IsRoute};

use crate::ways::Ways;
use plant_config::{Plant, PoolId, SourceId};

/// The way of a remote source, and the pool that has it.
#[derive(Clone, Copy, Debug)]
pub(crate) struct Route {
    pub(crate) pool: PoolId,
    pub(crate) way: SourceId,
}

/// By which pool and way a source comes, `None` where it is local or there is none.
pub(crate) fn route_of(ways: &Ways, plant: &Plant, source: Option<SourceId>) -> Option<Route>
    requires { AreWays plant.now ways.now }
    ensures route { result ≡ route_of plant.now source }
    ensures within { IfSome result (IsRoute plant.now) }
{
    let source = source?;
    let pool = pool_of(plant, source)?;
    let way = ways.get(source)?;
    Some(Route { pool, way })
}

// The pool of a source, also of one that the plant hasn't.
fn pool_of(plant: &Plant, source: SourceId) -> Option<PoolId>
    ensures pool { result ≡ pool_of plant.now source }
    ensures below { IfSome result (λ pool. pool < length plant.now.pools) }
    ensures plant { IsPlant plant.now }
{
    if plant.source_count() <= source.get() {
        return None;
    }
    plant.pool_of(source)
}
