//! The sections that have one entry alone: the title, and how the plant is served.

ghost use Rattle.toml.specs.View.{table_view};
ghost use Rattle.plant_file.specs.declared.fault.Field.TheVariants.{Title};
ghost use Rattle.plant_file.specs.Format.{top_keys, server_keys};
ghost use Rattle.plant_file.specs.Document.{text_for};
ghost use Rattle.plant_file.specs.Reading.{server_entry};
ghost use Rattle.plant_file.specs.FirstFault.{Answers};
ghost use Rattle.plant_file.specs.ReadingInside.{keys_at, entry_answer, only_answer};

use crate::entries::Server;
use crate::fault::{Field, Place, PlantFault, Section};
use crate::read::entry::Entry;
use crate::read::form::found;
use crate::text::Text;
use std::alloc::Global;
use toml::Table;

// The plant's title.
pub(crate) fn read_title(alloc: Global, document: &Table) -> Result<Text, PlantFault>
    ensures { Answers result
        (only_answer (text_for top_keys Title) top_keys (table_view document.now)) }
{
    let top = Entry {
        section: Section::Top,
        number: 0,
        table: document,
    };
    let title = top.words(Field::Title, 1, 40)?;
    Ok(Text::of(alloc, title)?)
}

// How the plant is served, of the keys of its section.
fn read_server_keys(alloc: Global, entry: &Entry) -> Result<Server, PlantFault>
    ensures { Answers result (entry_answer server_entry (keys_at server_keys entry.now.section)
        entry.now.number (table_view entry.now.table.now)) }
{
    let listen = entry.words_or(Field::Listen, 1, 64, "127.0.0.1")?;
    let display = entry.words_or(Field::Display, 1, 64, "127.0.0.1:8901")?;
    let idle_ms = entry.number_or(Field::IdleMs, 1, 60000, 100)? as u32;
    let idle_limit = entry.number_or(Field::IdleLimit, 1, 1000000, 1000000)? as u32;
    let turns = entry.number_or(Field::Turns, 1, 1 << 40, 1 << 40)?;
    let sessions = entry.number_or(Field::Sessions, 1, 1000000, 1000000)? as u32;
    let refresh_every = entry.number_or(Field::RefreshEvery, 0, 65535, 0)? as u32;
    let brightness = entry.number_or(Field::Brightness, 0, 3, 3)? as u8;
    let listen = Text::of(alloc, listen)?;
    let display = Text::of(alloc, display)?;
    Ok(Server {
        listen,
        display,
        idle_ms,
        idle_limit,
        turns,
        sessions,
        refresh_every,
        brightness,
    })
}

// How the plant is served. An absent section is an empty one.
pub(crate) fn read_server(alloc: Global, document: &Table) -> Result<Server, PlantFault>
    ensures { Answers result (only_answer server_entry server_keys (table_view document.now)) }
{
    let section = Section::Server;
    let number = 0;
    let Some(value) = found(document, section.key()) else {
        let empty = Table::new(alloc);
        return read_server_keys(
            alloc,
            &Entry {
                section,
                number,
                table: &empty,
            },
        );
    };
    match value.as_table() {
        Some(table) => read_server_keys(
            alloc,
            &Entry {
                section,
                number,
                table,
            },
        ),
        None => Err(PlantFault::WrongType {
            at: Place {
                section,
                entry: number,
                field: Field::Whole,
            },
        }),
    }
}
