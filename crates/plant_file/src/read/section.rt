//! The entries of a section.

ghost use Rattle.std.specs.Prelude.{◌≡◌, ◌<◌, ◌^◌, length};
ghost use Rattle.toml.specs.Data.{Members};
ghost use Rattle.toml.specs.View.{table_view};
ghost use Rattle.plant_file.specs.declared.fault.Section.{Section};
ghost use Rattle.plant_file.specs.Rows.{SectionKeys};
ghost use Rattle.plant_file.specs.FirstFault.{Answers};
ghost use Rattle.plant_file.specs.ReadingInside.{read_as, tables, entry_answer};
ghost use Rattle.plant_file.specs.ReadingInside.{counted, entries_answer, section_answer};

use crate::fault::{PlantFault, Section};
use crate::read::entry::Entry;
use crate::read::form;
use std::alloc::Global;
use toml::{Table, Value};

// An entry that is read of a table.
pub(crate) trait ReadEntry: Drop {
    // The keys of its section.
    ghost keys: { Section → SectionKeys };

    // What a table says.
    ghost said: { Section → Members → Self };

    fn read(alloc: Global, entry: &Entry) -> Result<Self, PlantFault>
        ensures { Answers result (entry_answer (said entry.now.section) (keys entry.now.section)
            entry.now.number (table_view entry.now.table.now)) };

    ghost named: { (section : Section) → (keys section).section ≡ section };
}

// The entries of an array, of which each is a table.
fn read_entries<T: ReadEntry>(
    alloc: Global,
    section: Section,
    items: &[Value],
) -> Result<Vec<T>, PlantFault>
    requires { length items.now < 2 ^ 32 }
    ensures { Answers (read_as (λ entries. entries.items) result)
        (entries_answer (T.said section) (T.keys section) (tables items.now)) }
{
    let mut entries = Vec::new(alloc);
    for item in items {
        if let Some(table) = item.as_table() {
            let entry = Entry {
                section,
                number: entries.len() as u32,
                table,
            };
            entries.push(T::read(alloc, &entry)?)?;
        }
    }
    Ok(entries)
}

// A section of a document, which has at least and at most so many entries.
pub(crate) fn read_section<T: ReadEntry>(
    alloc: Global,
    document: &Table,
    section: Section,
    least: u64,
    most: u64,
) -> Result<Vec<T>, PlantFault>
    requires least { least < 2 ^ 32 }
    requires most { most < 2 ^ 32 }
    ensures { Answers (read_as (λ entries. entries.items) result)
        (section_answer (T.said section) (counted least most (T.keys section))
        (table_view document.now)) }
{
    let items = form::entries(document, section, least, most)?;
    read_entries(alloc, section, items)
}
