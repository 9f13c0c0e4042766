//! The plant file of a text.

ghost use Rattle.std.specs.Prelude.{IfOk};
ghost use Rattle.plant_file.specs.FirstFault.{Answers};
ghost use Rattle.plant_rules.specs.PlantFile.{file_of_text};
ghost use Rattle.plant_rules.specs.IsFile.{IsFile};

use crate::data::data_fault;
use plant_file::{PlantFault, PlantFile, read_text};
use std::alloc::Global;

/// What a text says, or its first fault in the order of the checks. The text is a TOML document, whose sections and keys
/// are this project's profile; what it has beside them isn't looked at.
pub fn read(alloc: Global, text: &[u8]) -> Result<PlantFile, PlantFault>
    ensures answer { Answers result (file_of_text text.now) }
    ensures right { IfOk result IsFile }
{
    let file = read_text(alloc, text)?;
    match data_fault(alloc, &file)? {
        Some(fault) => Err(fault),
        None => Ok(file),
    }
}
