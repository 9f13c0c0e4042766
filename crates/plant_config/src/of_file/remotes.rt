//! The remote sources and the pools of a plant file, by what tells them apart.

ghost use Rattle.std.specs.Prelude.{◌≡◌, IfOk, OnOk, length, ◌≤◌};
ghost use Rattle.plant_config.specs.OfFileInside.{Maps, AddsTo, place_of, way_of};
ghost use Rattle.plant_config.specs.OfFileInside.{remote_among, pool_among};

use crate::numbers::PoolId;
use plant_file::{PoolEntry, RemoteEntry};
use std::alloc::{AllocError, Global};
use std::collections::BTreeMap;

/// The remotes by matrix, level and source.
pub type Remotes = BTreeMap<(u8, u8, u16), RemoteEntry>;

/// The pools by the matrix that they come from, the one that they lead to, and level.
pub type PoolsByWay = BTreeMap<(u8, u8, u8), PoolId>;

// Adds a remote, unless there is one at its place.
fn add_remote(remote: &RemoteEntry, made: &mut Remotes) -> Result<(), AllocError>
    ensures { OnOk result (AddsTo made.old made.new (place_of remote.now) remote.now) }
{
    let place = (remote.matrix, remote.level, remote.source);
    if !made.contains_key(&place) {
        made.insert(place, *remote)?;
    }
    Ok(())
}

/// The remotes of a file.
pub fn remotes_of(alloc: Global, remotes: &[RemoteEntry]) -> Result<Remotes, AllocError>
    ensures { IfOk result (λ made. Maps made (remote_among remotes.now)) }
{
    let mut made = BTreeMap::new(alloc);
    for remote in remotes {
        add_remote(remote, &mut made)?;
    }
    Ok(made)
}

// Adds the number of a pool, unless there is one on its way.
fn add_pool(pool: &PoolEntry, number: PoolId, made: &mut PoolsByWay) -> Result<(), AllocError>
    ensures { OnOk result (AddsTo made.old made.new (way_of pool.now) number) }
{
    let way = (pool.from, pool.to, pool.level);
    if !made.contains_key(&way) {
        made.insert(way, number)?;
    }
    Ok(())
}

/// The numbers of the pools of a file.
pub fn pools_of(alloc: Global, pools: &[PoolEntry]) -> Result<PoolsByWay, AllocError>
    requires { length pools.now ≤ 256 }
    ensures { IfOk result (λ made. Maps made (pool_among pools.now)) }
{
    let mut made = BTreeMap::new(alloc);
    for (number, pool) in pools.iter().enumerate() {
        add_pool(pool, PoolId::of(number as u32), &mut made)?;
    }
    Ok(made)
}
