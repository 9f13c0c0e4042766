//! The numbers of sources and destinations by their places.

ghost use Rattle.std.specs.Prelude.{◌≡◌, IfSome};
ghost use Rattle.plant_config.specs.Sites.{level_among};
ghost use Rattle.plant_config.specs.PlantOfFile.{source_number, dest_number};
ghost use Rattle.plant_config.specs.OfFileInside.{IsLow, AreLow};

use crate::numbers::{DestId, SourceId};
use crate::records::Level;

// The level of this matrix and this level number.
fn level_among(levels: &[Level], matrix: u8, level: u8) -> Option<Level>
    requires { AreLow levels.now }
    ensures found { result ≡ level_among levels.now matrix level }
    ensures low { IfSome result IsLow }
{
    levels
        .iter()
        .copied()
        .find(|at| at.matrix == matrix && at.level == level)
}

/// The source of this number at a level, 0 where there is none.
pub fn source_number(levels: &[Level], matrix: u8, level: u8, number: u16) -> SourceId
    requires { AreLow levels.now }
    ensures { result ≡ source_number levels.now matrix level number }
{
    let number = u32::from(number);
    match level_among(levels, matrix, level) {
        Some(at) if number < at.sources => SourceId::of(at.first_source + number),
        _ => SourceId::of(0),
    }
}

/// The destination of this number at a level, 0 where there is none.
pub fn dest_number(levels: &[Level], matrix: u8, level: u8, number: u16) -> DestId
    requires { AreLow levels.now }
    ensures { result ≡ dest_number levels.now matrix level number }
{
    let number = u32::from(number);
    match level_among(levels, matrix, level) {
        Some(at) if number < at.destinations => DestId::of(at.first_dest + number),
        _ => DestId::of(0),
    }
}
