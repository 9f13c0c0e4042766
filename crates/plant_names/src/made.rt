//! The tables of names, made of a plant.

ghost use Rattle.std.specs.Prelude.{◌≡◌, ◌+◌, ◌≤◌, ◌==◌, find, length, IfOk};
ghost use Rattle.std.specs.Option.{option_map};
ghost use Rattle.plant_config.specs.IsPlant.{IsPlant};
ghost use Rattle.plant_config.specs.Sites.{level_at};
ghost use Rattle.plant_config.specs.NamesOfLevel.{source_names, dest_names};
ghost use Rattle.plant_names.specs.Pages.{lowest_level};
ghost use Rattle.plant_names.specs.NamesInside.{named, placed, IsTable};

use crate::level::{LevelNames, index_of};
use plant_config::{Level, Name, Plant};
use std::alloc::{AllocError, Global};

/// The names of each level that a plant may have, where the plant has it, in the order matrix, level.
pub(crate) fn levels_of(alloc: Global, plant: &Plant) -> Result<Vec<Option<LevelNames>>, AllocError>
    ensures { IfOk result (λ made. IsTable (placed plant.now) 256 made.items) }
{
    let mut levels = Vec::new(alloc);
    for place in 0..256u16 {
        let names = names_at(alloc, plant, (place / 16) as u8, (place % 16) as u8)?;
        levels.push(names)?;
    }
    Ok(levels)
}

/// The lowest level of each matrix that a plant may have, where the plant has the matrix.
pub(crate) fn lowest_of(alloc: Global, plant: &Plant) -> Result<Vec<Option<Level>>, AllocError>
    ensures lowest { IfOk result (λ made. IsTable (lowest_level plant.now) 16 made.items) }
    ensures plant { IsPlant plant.now }
{
    let levels = plant.levels();
    let mut lowest = Vec::new(alloc);
    for matrix in 0..16u8 {
        lowest.push(lowest_among(levels, matrix))?;
    }
    Ok(lowest)
}

// The lowest level of a matrix. Levels are in the order matrix, level.
fn lowest_among(levels: &[Level], matrix: u8) -> Option<Level>
    ensures { result ≡ find (λ at. at.matrix == matrix) levels.now }
{
    levels.iter().copied().find(|at| at.matrix == matrix)
}

// The names of a level, where the plant has it.
fn names_at(
    alloc: Global,
    plant: &Plant,
    matrix: u8,
    level: u8,
) -> Result<Option<LevelNames>, AllocError>
    ensures { IfOk result (λ made. made
        ≡ option_map (named plant.now) (level_at plant.now matrix level)) }
{
    let Some(at) = level_of(plant, matrix, level) else {
        return Ok(None);
    };
    let sources = names_of_sources(alloc, plant, at)?;
    Ok(Some(LevelNames {
        at,
        sources: index_of(alloc, &sources)?,
        dests: index_of(alloc, names_of_dests(plant, at))?,
    }))
}

// The level of this matrix and this level number.
fn level_of(plant: &Plant, matrix: u8, level: u8) -> Option<Level>
    ensures at { result ≡ level_at plant.now matrix level }
    ensures plant { IsPlant plant.now }
{
    plant
        .levels()
        .iter()
        .copied()
        .find(|at| at.matrix == matrix && at.level == level)
}

// The names of a level's sources.
fn names_of_sources(alloc: Global, plant: &Plant, at: Level) -> Result<Vec<Name>, AllocError>
    requires { at.first_source + at.sources ≤ length plant.now.sources }
    ensures { IfOk result (λ names. names.items ≡ source_names plant.now at) }
{
    let first = at.first_source as usize;
    let sources = &plant.sources()[first..first + at.sources as usize];
    sources.iter().map(|source| source.name).collect(alloc)
}

// The names of a level's destinations.
fn names_of_dests(plant: &Plant, at: Level) -> &[Name]
    requires { at.first_dest + at.destinations ≤ length plant.now.dest_names }
    ensures { result.now ≡ dest_names plant.now at }
{
    let first = at.first_dest as usize;
    &plant.dest_names()[first..first + at.destinations as usize]
}
