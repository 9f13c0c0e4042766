//! The names of a plant.

ghost use Rattle.std.specs.Prelude.{◌≡◌, ◌+◌, ◌<◌, ◌≤◌, ◌++◌, IfOk, IfSome, OnSome};
ghost use Rattle.std.specs.Prelude.{vec_len, vec_capacity};
ghost use Rattle.std.specs.Option.{option_copied, option_map};
ghost use Rattle.plant_config.specs.Limits.{matrix_limit, level_limit};
ghost use Rattle.plant_config.specs.Sites.{level_at};
ghost use Rattle.plant_names.specs.Lookup.{source_named, dest_named};
ghost use Rattle.plant_names.specs.Pages.{HasFew, HaveNumbers, lowest_level};
ghost use Rattle.plant_names.specs.Pages.{max_page_len, page_end};
ghost use Rattle.plant_names.specs.Pages.{names_of_sources, names_of_dests, source_page_data};
ghost use Rattle.plant_names.specs.Pages.{dest_page_data};
ghost use Rattle.plant_names.specs.NamesInside.{named, IsNamed};

use crate::level::{LevelNames, number_of};
use crate::made::{levels_of, lowest_of};
use crate::page::{PageAsk, PageHead};
use crate::paged::Paged;
use plant_config::{DestId, Level, Plant, SourceId};
use seen_value::Seen;
use std::alloc::{AllocError, Global};
use std::marker::Model;

// The commands of pages.
const SOURCE_PAGE: u8 = 106;

const DEST_PAGE: u8 = 107;

/// The names of a plant's sources and destinations, with an index of those of each level. A contract sees it as the plant.
#[derive(Drop)]
pub struct Names {
    plant: Seen<Plant>,
    // One place for each level of each matrix that a plant may have.
    levels: Vec<Option<LevelNames>>,
    // The lowest level of each matrix that a plant may have.
    lowest: Vec<Option<Level>>,
}

impl Model for Names {
    ghost use Rattle.plant_config.specs.Plant.{PlantData};
    ghost use Rattle.plant_names.specs.NamesInside.{IsIndex};

    ghost Value = { PlantData };

    ghost view = { λ names. names.plant.value };

    ghost invariant = { λ names. IsIndex names.plant.value names.levels.items names.lowest.items };
}

impl Names {
    /// The names of a plant.
    pub fn new(alloc: Global, plant: &Plant) -> Result<Names, AllocError>
        ensures { IfOk result (λ names. names ≡ plant.now) }
    {
        let levels = levels_of(alloc, plant)?;
        let lowest = lowest_of(alloc, plant)?;
        Ok(Names {
            plant: Seen::of(plant),
            levels,
            lowest,
        })
    }

    // The names of a level, where the plant has it.
    fn level(&self, matrix: u8, level: u8) -> Option<&LevelNames>
        ensures names { option_copied result
            ≡ option_map (named self.now) (level_at self.now matrix level) }
        ensures limits { IfSome result (λ names. IsNamed names.now) }
        ensures matrix { OnSome result (matrix < matrix_limit) }
        ensures level { OnSome result (level < level_limit) }
    {
        let levels = &self.levels;
        if matrix >= 16 || level >= 16 {
            return None;
        }
        levels[usize::from(matrix) * 16 + usize::from(level)].as_ref()
    }

    // The names of the lowest level of a matrix, where the plant has the matrix.
    fn lowest_level_names(&self, matrix: u8) -> Option<&LevelNames>
        ensures names { option_copied result
            ≡ option_map (named self.now) (lowest_level self.now matrix) }
        ensures limits { IfSome result (λ names. IsNamed names.now) }
        ensures matrix { OnSome result (matrix < matrix_limit) }
    {
        let lowest = &self.lowest;
        if matrix >= 16 {
            return None;
        }
        match lowest[usize::from(matrix)] {
            Some(at) => self.level(at.matrix, at.level),
            None => None,
        }
    }

    /// The source of this name at a level: `None` exactly where the level has no such name.
    pub fn find_source(&self, matrix: u8, level: u8, name: &[u8]) -> Option<SourceId>
        ensures { result ≡ source_named self.now matrix level name.now }
    {
        let level = self.level(matrix, level)?;
        let number = number_of(&level.sources, name)?;
        Some(SourceId::of(level.at.first_source + number as u32))
    }

    /// The destination of this name at a level: `None` exactly where the level has no such name.
    pub fn find_dest(&self, matrix: u8, level: u8, name: &[u8]) -> Option<DestId>
        ensures { result ≡ dest_named self.now matrix level name.now }
    {
        let level = self.level(matrix, level)?;
        let number = number_of(&level.dests, name)?;
        Some(DestId::of(level.at.first_dest + number as u32))
    }

    /// Appends the DATA of the page of a level's source names that begins at a number, command 106 of this project's profile,
    /// and says how the page ends. `size` is 0, 1 or 2, for 4, 8 or 12 bytes a name, and `one` asks for one name alone.
    #[tactic(auto, using(crate::proofs::PageLemmas::few_of))]
    pub fn source_page(
        &self,
        matrix: u8,
        level: u8,
        size: u8,
        first: u16,
        one: bool,
        out: &mut Vec<u8>,
    ) -> Paged
        requires size { size ≤ 2 }
        requires room { vec_len out.old + max_page_len ≤ vec_capacity out.old }
        ensures end { result
            ≡ page_end one size first (names_of_sources self.now matrix level) }
        ensures few { IfSome (names_of_sources self.now matrix level) (HasFew one size first) }
        ensures numbers { IfSome (names_of_sources self.now matrix level) HaveNumbers }
        ensures text { out.new.items ≡ out.old.items
            ++ source_page_data self.now matrix level size first one }
        ensures room { vec_capacity out.new ≡ vec_capacity out.old }
        ensures most { vec_len out.new ≤ vec_len out.old + max_page_len }
    {
        let Some(names) = self.level(matrix, level) else {
            return Paged::Nothing;
        };
        let head = PageHead {
            command: SOURCE_PAGE,
            matrix,
            level,
        };
        PageAsk { size, first, one }.write(head, names.sources.as_slice(), out)
    }

    /// Appends the DATA of the page of a matrix's destination names that begins at a number, command 107 of this project's
    /// profile, as `source_page` does. The names are those of the matrix's lowest level, and the level of the page is 0.
    #[tactic(auto, using(crate::proofs::PageLemmas::few_of))]
    pub fn dest_page(&self, matrix: u8, size: u8, first: u16, one: bool, out: &mut Vec<u8>) -> Paged
        requires size { size ≤ 2 }
        requires room { vec_len out.old + max_page_len ≤ vec_capacity out.old }
        ensures end { result ≡ page_end one size first (names_of_dests self.now matrix) }
        ensures few { IfSome (names_of_dests self.now matrix) (HasFew one size first) }
        ensures numbers { IfSome (names_of_dests self.now matrix) HaveNumbers }
        ensures text { out.new.items ≡ out.old.items
            ++ dest_page_data self.now matrix size first one }
        ensures room { vec_capacity out.new ≡ vec_capacity out.old }
        ensures most { vec_len out.new ≤ vec_len out.old + max_page_len }
    {
        let Some(names) = self.lowest_level_names(matrix) else {
            return Paged::Nothing;
        };
        let head = PageHead {
            command: DEST_PAGE,
            matrix,
            level: 0,
        };
        PageAsk { size, first, one }.write(head, names.dests.as_slice(), out)
    }
}
