//! What a plant file has, in tables that are made once and looked up by every rule.

ghost use Rattle.std.specs.Prelude.{◌≡◌, map, IfOk};
ghost use Rattle.std.specs.BTreeSet.{IsFromIterResult};
ghost use Rattle.plant_rules.specs.Links.{has_level, has_source, has_destination};
ghost use Rattle.plant_rules.specs.Links.{has_device, is_remote, has_pool};
ghost use Rattle.plant_rules.specs.KnownInside.{widened, triple_cmp, name_cmp, remote_place};
ghost use Rattle.plant_rules.specs.KnownInside.{pool_place, KnowsLevels};

use plant_file::{DeviceEntry, LevelEntry, Name, PlantFile, PoolEntry, RemoteEntry};
use std::alloc::{AllocError, Global};
use std::collections::{BTreeMap, BTreeSet};
use std::marker::Model;

// The most sources and the most destinations of the entries of one level.
#[derive(Clone, Copy, Debug)]
struct Counts {
    sources: u32,
    destinations: u32,
}

// A plant file, with tables of what it has. A contract sees it as the file.
#[derive(Drop)]
pub(crate) struct Known<'a> {
    file: &'a PlantFile,
    // by matrix and level
    levels: BTreeMap<(u8, u8), Counts>,
    // by matrix, level and source
    remotes: BTreeSet<(u8, u8, u16)>,
    // by the matrix that it comes from, the one that it leads to, and level
    pools: BTreeSet<(u8, u8, u8)>,
    devices: BTreeSet<Name>,
}

impl<'a> Model for Known<'a> {
    ghost use Rattle.plant_file.specs.FileData.{FileData};
    ghost use Rattle.plant_rules.specs.KnownInside.{IsKnown};

    ghost Value = { FileData };

    ghost view = { λ known. known.file.now };

    ghost invariant = { λ known.
        IsKnown known.levels known.remotes known.pools known.devices known.file.now };
}

// What is known of a level, and of one more entry of it.
fn widened(before: Option<Counts>, level: &LevelEntry) -> Counts
    ensures { result ≡ widened before level.now }
{
    let counts = before.unwrap_or(Counts {
        sources: 0,
        destinations: 0,
    });
    Counts {
        sources: counts.sources.max(level.sources()),
        destinations: counts.destinations.max(level.destinations()),
    }
}

fn known_remotes(
    alloc: Global,
    remotes: &[RemoteEntry],
) -> Result<BTreeSet<(u8, u8, u16)>, AllocError>
    ensures { IfOk result (IsFromIterResult triple_cmp (map remote_place remotes.now)) }
{
    remotes
        .iter()
        .map(|remote| (remote.matrix, remote.level, remote.source))
        .collect(alloc)
}

fn known_pools(alloc: Global, pools: &[PoolEntry]) -> Result<BTreeSet<(u8, u8, u8)>, AllocError>
    ensures { IfOk result (IsFromIterResult triple_cmp (map pool_place pools.now)) }
{
    pools
        .iter()
        .map(|pool| (pool.from, pool.to, pool.level))
        .collect(alloc)
}

fn known_devices(alloc: Global, devices: &[DeviceEntry]) -> Result<BTreeSet<Name>, AllocError>
    ensures { IfOk result (IsFromIterResult name_cmp (map (λ device. device.name) devices.now)) }
{
    devices.iter().map(|device| device.name).collect(alloc)
}

fn known_levels(
    alloc: Global,
    levels: &[LevelEntry],
) -> Result<BTreeMap<(u8, u8), Counts>, AllocError>
    ensures { IfOk result (λ known. KnowsLevels known levels.now) }
{
    let mut known = BTreeMap::new(alloc);
    for level in levels {
        let place = (level.matrix(), level.level());
        let before = known.get(&place).copied();
        known.insert(place, widened(before, level))?;
    }
    Ok(known)
}

impl<'a> Known<'a> {
    pub fn of(alloc: Global, file: &'a PlantFile) -> Result<Known<'a>, AllocError>
        ensures { IfOk result (λ known. known ≡ file.now) }
    {
        Ok(Known {
            file,
            levels: known_levels(alloc, file.levels())?,
            remotes: known_remotes(alloc, file.remotes())?,
            pools: known_pools(alloc, file.pools())?,
            devices: known_devices(alloc, file.devices())?,
        })
    }

    pub fn file(&self) -> &'a PlantFile
        ensures { result.now ≡ self.now }
    {
        self.file
    }

    pub fn has_level(&self, matrix: u8, level: u8) -> bool
        ensures { result ≡ has_level self.now matrix level }
    {
        self.levels.contains_key(&(matrix, level))
    }

    pub fn has_source(&self, matrix: u8, level: u8, source: u16) -> bool
        ensures { result ≡ has_source self.now matrix level source }
    {
        match self.levels.get(&(matrix, level)) {
            Some(counts) => u32::from(source) < counts.sources,
            None => false,
        }
    }

    pub fn has_destination(&self, matrix: u8, level: u8, destination: u16) -> bool
        ensures { result ≡ has_destination self.now matrix level destination }
    {
        match self.levels.get(&(matrix, level)) {
            Some(counts) => u32::from(destination) < counts.destinations,
            None => false,
        }
    }

    pub fn has_device(&self, name: &Name) -> bool
        ensures { result ≡ has_device self.now name.now }
    {
        self.devices.contains(name)
    }

    pub fn is_remote(&self, matrix: u8, level: u8, source: u16) -> bool
        ensures { result ≡ is_remote self.now matrix level source }
    {
        self.remotes.contains(&(matrix, level, source))
    }

    pub fn has_pool(&self, from: u8, to: u8, level: u8) -> bool
        ensures { result ≡ has_pool self.now from to level }
    {
        self.pools.contains(&(from, to, level))
    }
}
