//! The levels of a plant, each found in one look: by its matrix and its number, and by what it has.

ghost use Rattle.std.specs.Prelude.{◌≡◌, ◌+◌, ◌*◌, ◌^◌, ◌<◌, ◌≤◌, All, length, find, sum, IfOk};
ghost use Rattle.plant_config.specs.Limits.{matrix_limit, level_limit, all_levels_limit};
ghost use Rattle.plant_config.specs.Limits.{all_destinations_limit, all_sources_limit};
ghost use Rattle.plant_config.specs.Plant.{dest_numbers, source_numbers};
ghost use Rattle.plant_config.specs.Sites.{level_among, has_number};
ghost use Rattle.plant_config.specs.LevelsInside.{IsInGrid, AreNoted, AreNumbered, LeadToLevels};
ghost use Rattle.plant_config.specs.LevelsInside.{place_of, level_by, indices_from};

use crate::limits::{LEVELS_OF_A_MATRIX, MATRICES};
use crate::numbers::{DestId, SourceId};
use crate::records::Level;
use std::alloc::{AllocError, Global};
use std::marker::Model;

// How many levels the matrices of a plant have room for.
const PLACES: usize = 256;

/// The levels of a plant. A contract sees them as their list.
#[derive(Debug, Drop)]
pub(crate) struct Levels {
    levels: Vec<Level>,
    // Where in the list each matrix and level number has its level.
    places: [Option<u8>; PLACES],
    // Where in the list the level of each destination of the plant is, and that of each source.
    of_dests: Vec<u8>,
    of_sources: Vec<u8>,
}

impl Model for Levels {
    ghost use Rattle.std.specs.Prelude.{List};
    ghost use Rattle.plant_config.specs.declared.records.Level.{Level};

    ghost Value = { List Level };

    ghost use Rattle.plant_config.specs.LevelsInside.{AreFound};

    ghost view = { λ levels. levels.levels.items };

    ghost invariant = { λ levels. AreFound levels.levels.items levels.places
        levels.of_dests.items levels.of_sources.items };
}

impl Levels {
    /// These levels. Of two with one matrix and number the first is found.
    pub(crate) fn of(alloc: Global, levels: Vec<Level>) -> Result<Levels, AllocError>
        requires in_grid { All IsInGrid levels.items }
        requires few { length levels.items ≤ all_levels_limit }
        requires dests { AreNumbered dest_numbers all_destinations_limit levels.items }
        requires sources { AreNumbered source_numbers all_sources_limit levels.items }
        ensures { IfOk result (λ made. made ≡ levels.items) }
    {
        let places = noted(levels.as_slice());
        let of_dests = of_dests(alloc, levels.as_slice())?;
        let of_sources = of_sources(alloc, levels.as_slice())?;
        Ok(Levels {
            levels,
            places,
            of_dests,
            of_sources,
        })
    }

    /// Equal levels.
    pub(crate) fn copy(&self, alloc: Global) -> Result<Levels, AllocError>
        ensures { IfOk result (λ levels. levels ≡ self.now) }
    {
        Ok(Levels {
            levels: self.levels.as_slice().to_vec(alloc)?,
            places: self.places,
            of_dests: self.of_dests.as_slice().to_vec(alloc)?,
            of_sources: self.of_sources.as_slice().to_vec(alloc)?,
        })
    }

    /// The levels, in order.
    pub(crate) fn as_slice(&self) -> &[Level]
        ensures { result.now ≡ self.now }
    {
        self.levels.as_slice()
    }

    /// The level of this matrix and this number.
    pub(crate) fn at(&self, matrix: u8, level: u8) -> Option<Level>
        ensures { result ≡ level_among self.now matrix level }
    {
        let places = &self.places;
        if matrix < MATRICES && level < LEVELS_OF_A_MATRIX {
            let index = places[place_of(matrix, level)]?;
            self.levels.get(usize::from(index)).copied()
        } else {
            None
        }
    }

    /// The level that has this destination.
    pub(crate) fn of_dest(&self, dest: DestId) -> Option<Level>
        ensures { result ≡ find (has_number dest_numbers dest) self.now }
    {
        level_by(self.levels.as_slice(), self.of_dests.as_slice(), dest.get())
    }

    /// The level that has this source.
    pub(crate) fn of_source(&self, source: SourceId) -> Option<Level>
        ensures { result ≡ find (has_number source_numbers source) self.now }
    {
        level_by(
            self.levels.as_slice(),
            self.of_sources.as_slice(),
            source.get(),
        )
    }
}

// Where a matrix and a level number are noted.
fn place_of(matrix: u8, level: u8) -> usize
    requires matrix { matrix < matrix_limit }
    requires level { level < level_limit }
    ensures place { result ≡ place_of matrix level }
    ensures within { result < 256 }
{
    usize::from(matrix) * usize::from(LEVELS_OF_A_MATRIX) + usize::from(level)
}

// Where in the list each matrix and level number has its level.
fn noted(levels: &[Level]) -> [Option<u8>; PLACES]
    requires in_grid { All IsInGrid levels.now }
    requires few { length levels.now ≤ all_levels_limit }
    ensures { AreNoted levels.now result }
{
    let mut places = [None; PLACES];
    for index in (0..levels.len()).rev() {
        let level = &levels[index];
        places[place_of(level.matrix, level.level)] = Some(index as u8);
    }
    places
}

// The level whose index stands at a number.
fn level_by(levels: &[Level], indices: &[u8], number: u32) -> Option<Level>
    ensures { result ≡ level_by levels.now indices.now number }
{
    let index = *indices.get(number as usize)?;
    levels.get(usize::from(index)).copied()
}

// Where in the list the level of each destination is.
fn of_dests(alloc: Global, levels: &[Level]) -> Result<Vec<u8>, AllocError>
    requires few { length levels.now ≤ all_levels_limit }
    requires dests { AreNumbered dest_numbers all_destinations_limit levels.now }
    ensures { IfOk result (λ made. LeadToLevels dest_numbers levels.now made.items) }
{
    let counts: Vec<u32> = levels
        .iter()
        .map(|level| level.destinations)
        .collect(alloc)?;
    indices(alloc, counts.as_slice())
}

// Where in the list the level of each source is.
fn of_sources(alloc: Global, levels: &[Level]) -> Result<Vec<u8>, AllocError>
    requires few { length levels.now ≤ all_levels_limit }
    requires sources { AreNumbered source_numbers all_sources_limit levels.now }
    ensures { IfOk result (λ made. LeadToLevels source_numbers levels.now made.items) }
{
    let counts: Vec<u32> = levels.iter().map(|level| level.sources).collect(alloc)?;
    indices(alloc, counts.as_slice())
}

// The indices from 0 on, each as often as its count says. A byte has room for each: a plant has 256 levels at most.
fn indices(alloc: Global, counts: &[u32]) -> Result<Vec<u8>, AllocError>
    requires few { length counts.now ≤ all_levels_limit }
    requires fits { sum counts.now < 2 ^ 32 }
    ensures { IfOk result (λ made. made.items ≡ indices_from 0 counts.now) }
{
    let total: u32 = counts.iter().sum();
    let mut indices = Vec::with_capacity(alloc, total as usize)?;
    for (index, count) in counts.iter().enumerate() {
        indices.resize(indices.len() + *count as usize, index as u8)?;
    }
    Ok(indices)
}
