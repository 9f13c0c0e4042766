//! The sources of a plant file, each with its origin.

ghost use Rattle.std.specs.Prelude.{◌≡◌, ◌≤◌, ◌++◌, All, flat_map, length, IfOk, is_ok, OnOk};
ghost use Rattle.plant_config.specs.PlantOfFile.{pool_number, sources_at};
ghost use Rattle.plant_config.specs.OfFileInside.{AreLow, Knows, HasFewSources, shown};
ghost use Rattle.plant_config.specs.OfFileInside.{behind, origin_in};

use super::lookups::source_number;
use super::remotes::{PoolsByWay, Remotes, pools_of, remotes_of};
use crate::numbers::{PoolId, SourceId};
use crate::records::{Level, Source};
use plant_file::{LevelEntry, PlantFile, RemoteEntry};
use std::alloc::{AllocError, Global};

// What tells where a source of a file comes from.
#[derive(Drop)]
struct Origins<'a> {
    file: &'a PlantFile,
    levels: &'a [Level],
    remotes: Remotes,
    pools: PoolsByWay,
    ghost known: { Knows file.now levels.now remotes pools },
}

impl<'a> Origins<'a> {
    // That of this file, by its levels as they are in the plant.
    fn of(
        alloc: Global,
        file: &'a PlantFile,
        levels: &'a [Level],
    ) -> Result<Origins<'a>, AllocError>
        requires low { AreLow levels.now }
        requires few { length file.now.pools ≤ 256 }
        ensures file { IfOk result (λ made. made.file.now ≡ file.now) }
        ensures levels { IfOk result (λ made. made.levels.now ≡ levels.now) }
    {
        let remotes = remotes_of(alloc, file.remotes())?;
        let pools = pools_of(alloc, file.pools())?;
        Ok(Origins {
            file,
            levels,
            remotes,
            pools,
        })
    }

    // The pool that leads to a remote. A file without a fault has one for each; the count of all
    // stands for none.
    fn pool(&self, remote: &RemoteEntry) -> PoolId
        ensures { result ≡ pool_number self.now.file.now remote.now }
    {
        match self.pools.get(&(remote.from, remote.matrix, remote.level)) {
            Some(number) => *number,
            None => PoolId::of(self.file.pools().len() as u32),
        }
    }

    // Where a remote source comes from: its origin, and the pool that leads from there.
    fn behind(&self, remote: &RemoteEntry) -> (SourceId, Option<PoolId>)
        ensures { result ≡ behind self.now.levels.now self.now.file.now remote.now }
    {
        let origin = source_number(self.levels, remote.from, remote.level, remote.from_source);
        (origin, Some(self.pool(remote)))
    }

    // Where a source of a level comes from. A local one is its own origin.
    fn origin(&self, level: &LevelEntry, number: u16) -> (SourceId, Option<PoolId>)
        ensures { result
            ≡ origin_in self.now.levels.now self.now.file.now level.now number }
    {
        let (matrix, at) = (level.matrix(), level.level());
        match self.remotes.get(&(matrix, at, number)) {
            Some(remote) => self.behind(remote),
            None => (source_number(self.levels, matrix, at, number), None),
        }
    }

    // Adds the sources of a level.
    fn add_sources(&self, level: &LevelEntry, made: &mut Vec<Source>) -> Result<(), AllocError>
        requires { HasFewSources level.now }
        ensures { OnOk result (made.new.items
            ≡ made.old.items ++ sources_at self.now.levels.now self.now.file.now level.now) }
    {
        for (number, name) in level.source_names().iter().enumerate() {
            let (origin, pool) = self.origin(level, number as u16);
            made.push(Source {
                name: *name,
                origin,
                pool,
            })?;
        }
        Ok(())
    }

    // The sources of these levels.
    fn sources(&self, alloc: Global, ordered: &[&LevelEntry]) -> Result<Vec<Source>, AllocError>
        requires { All HasFewSources (shown ordered.now) }
        ensures { IfOk result (λ made. made.items
            ≡ flat_map (sources_at self.now.levels.now self.now.file.now) (shown ordered.now)) }
    {
        let mut made = Vec::new(alloc);
        for level in ordered {
            self.add_sources(level, &mut made)?;
        }
        Ok(made)
    }
}

/// The sources of the plant, those of these levels of its file.
pub fn sources(
    alloc: Global,
    file: &PlantFile,
    levels: &[Level],
    ordered: &[&LevelEntry],
) -> Result<Vec<Source>, AllocError>
    requires low { AreLow levels.now }
    requires few_pools { length file.now.pools ≤ 256 }
    requires few_sources { All HasFewSources (shown ordered.now) }
    ensures { IfOk result
        (λ made. made.items ≡ flat_map (sources_at levels.now file.now) (shown ordered.now)) }
{
    let origins = Origins::of(alloc, file, levels)?;
    origins.sources(alloc, ordered)
}
