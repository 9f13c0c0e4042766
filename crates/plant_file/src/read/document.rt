//! A document: its text, and all sections in their order.

ghost use Rattle.std.specs.Prelude.{IfOk};
ghost use Rattle.toml.specs.View.{table_view};
ghost use Rattle.plant_file.specs.KeyFaults.{sections_faults};
ghost use Rattle.plant_file.specs.FirstFault.{first_fault, unless_fault, Answers};
ghost use Rattle.plant_file.specs.Reading.{data_of};
ghost use Rattle.plant_file.specs.Ranges.{AreInRange};
ghost use Rattle.plant_file.specs.DataOfText.{document_answer, data_of_text};
ghost use Rattle.plant_file.specs.ReadingInside.{read_as};

use crate::fault::{PlantFault, Section};
use crate::file::PlantFile;
use crate::read::section::read_section;
use crate::read::server::{read_server, read_title};
use std::alloc::Global;
use toml::Table;

// The data of a document, or its first fault of sections and keys.
pub(crate) fn read_document(alloc: Global, document: &Table) -> Result<PlantFile, PlantFault>
    ensures { Answers result (unless_fault (data_of (table_view document.now))
        (first_fault (sections_faults (table_view document.now)))) }
{
    let title = read_title(alloc, document)?;
    let server = read_server(alloc, document)?;
    let levels = read_section(alloc, document, Section::Level, 1, 256)?;
    let remotes = read_section(alloc, document, Section::Remote, 0, 16384)?;
    let pools = read_section(alloc, document, Section::Pool, 0, 256)?;
    let devices = read_section(alloc, document, Section::Device, 0, 64)?;
    let buses = read_section(alloc, document, Section::Bus, 0, 1024)?;
    let air = read_section(alloc, document, Section::Air, 0, 65536)?;
    let preview = read_section(alloc, document, Section::Preview, 0, 65536)?;
    let displays = read_section(alloc, document, Section::Display, 0, 4096)?;
    let panels = read_section(alloc, document, Section::Panel, 1, 64)?;
    Ok(PlantFile {
        title,
        server,
        levels,
        remotes,
        pools,
        devices,
        buses,
        air,
        preview,
        displays,
        panels,
    })
}

// The document of a text.
fn parse(alloc: Global, text: &[u8]) -> Result<Table, PlantFault>
    ensures { Answers (read_as (λ table. table_view table) result) (document_answer text.now) }
{
    let Ok(text) = std::str::from_utf8(text) else {
        return Err(PlantFault::NotToml);
    };
    match toml::table_from_str(alloc, text) {
        Ok(table) => Ok(table),
        Err(error) => {
            if error.is_memory() {
                Err(PlantFault::NoMemory)
            } else {
                Err(PlantFault::NotToml)
            }
        }
    }
}

/// What a text says, or the first fault of its sections and keys. The text is a TOML document, whose sections and keys are
/// this project's profile; what it has beside them isn't looked at, and neither is what entries are together.
pub fn read_text(alloc: Global, text: &[u8]) -> Result<PlantFile, PlantFault>
    ensures answer { Answers result (data_of_text text.now) }
    ensures ranges { IfOk result AreInRange }
{
    let document = parse(alloc, text)?;
    read_document(alloc, &document)
}
