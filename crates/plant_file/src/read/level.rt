//! A level, with the names of its sources and destinations.

ghost use Rattle.std.specs.Prelude.{refl};
ghost use Rattle.toml.specs.View.{table_view};
ghost use Rattle.plant_file.specs.Format.{level_keys};
ghost use Rattle.plant_file.specs.Reading.{level_entry};
ghost use Rattle.plant_file.specs.FirstFault.{Answers};
ghost use Rattle.plant_file.specs.ReadingInside.{keys_at, entry_answer};

use crate::fault::{Field, PlantFault};
use crate::level::LevelEntry;
use crate::read::entry::Entry;
use crate::read::names::names;
use crate::read::section::ReadEntry;
use std::alloc::Global;

// A level.
pub(crate) fn read_level(alloc: Global, entry: &Entry) -> Result<LevelEntry, PlantFault>
    ensures { Answers result (entry_answer level_entry (keys_at level_keys entry.now.section)
        entry.now.number (table_view entry.now.table.now)) }
{
    let matrix = entry.number(Field::Matrix, 0, 15)? as u8;
    let level = entry.number(Field::Level, 0, 15)? as u8;
    let sources = entry.number(Field::Sources, 1, 65535)? as u32;
    let destinations = entry.number(Field::Destinations, 1, 65536)? as u32;
    let source_names = names(
        alloc,
        entry,
        Field::SourceNames,
        Field::Sources,
        sources,
        b'S',
    )?;
    let destination_names = names(
        alloc,
        entry,
        Field::DestinationNames,
        Field::Destinations,
        destinations,
        b'D',
    )?;
    Ok(LevelEntry {
        matrix,
        level,
        sources,
        destinations,
        source_names,
        destination_names,
    })
}

impl ReadEntry for LevelEntry {
    ghost keys = { keys_at level_keys };

    ghost said = { λ _. level_entry };

    ghost named = { λ _. refl };

    fn read(alloc: Global, entry: &Entry) -> Result<Self, PlantFault> {
        read_level(alloc, entry)
    }
}
