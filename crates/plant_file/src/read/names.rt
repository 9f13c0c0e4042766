//! Names in an array, and the default names behind them.

ghost use Rattle.std.specs.Prelude.{◌≡◌, ◌≤◌, [], ◌∷◌, IfOk, Some};
ghost use Rattle.toml.specs.Data.{array};
ghost use Rattle.toml.specs.View.{view, table_view};
ghost use Rattle.plant_file.specs.Rows.{key, Names, no_names};
ghost use Rattle.plant_file.specs.Document.{found_at, as_number};
ghost use Rattle.plant_file.specs.Reading.{names_of};
ghost use Rattle.plant_file.specs.FirstFault.{Answers};
ghost use Rattle.plant_file.specs.ReadingInside.{read_as, key_answer, texts_answer};
ghost use Rattle.plant_file.specs.ReadingInside.{names_answer, names_in};

use crate::fault::{Field, Place, PlantFault};
use crate::name::{MAX_NAME, Name};
use crate::read::entry::Entry;
use crate::read::values::{range_fault, words};
use std::alloc::{AllocError, Global};
use toml::Value;

// Names of the first of so many things, with default names for the others.
fn with_defaults(mut names: Vec<Name>, letter: u8, count: u32) -> Result<Vec<Name>, AllocError>
    requires { count ≤ 65536 }
    ensures { IfOk result (λ all. all.items ≡ names_of (letter ∷ []) count names.items) }
{
    let first = names.len();
    for number in first..count as usize {
        names.push(Name::numbered(letter, number as u16))?;
    }
    Ok(names)
}

// Texts of names, each of which is printable.
fn read_names(alloc: Global, at: Place, items: &[Value]) -> Result<Vec<Name>, PlantFault>
    ensures { Answers (read_as (λ names. names.items) result) (texts_answer at items.now) }
{
    let mut names = Vec::new(alloc);
    for item in items {
        let text = words(at, item, 1, MAX_NAME as u64)?;
        names.push(Name::of(text.as_bytes()))?;
    }
    Ok(names)
}

// An array of names, of which there are at most `count`.
fn name_array(alloc: Global, at: Place, value: &Value, count: u32) -> Result<Vec<Name>, PlantFault>
    ensures { Answers (read_as (λ names. names.items) result)
        (names_answer at count (view value.now)) }
{
    let items = match value.as_array() {
        Some(items) => items.as_slice(),
        None => return Err(PlantFault::WrongType { at }),
    };
    match range_fault(at, items.len() as i64, 0, u64::from(count)) {
        Some(fault) => Err(fault),
        None => read_names(alloc, at, items),
    }
}

// The names of so many things, of which the first are in an array. The key `limit` of the entry says how many there are.
pub(crate) fn names(
    alloc: Global,
    entry: &Entry,
    field: Field,
    limit: Field,
    count: u32,
    letter: u8,
) -> Result<Vec<Name>, PlantFault>
    requires count { count ≤ 65536 }
    requires limit { as_number (found_at limit (table_view entry.now.table.now)) ≡ count }
    ensures { Answers (read_as (λ names. names.items) result)
        (key_answer (names_in (letter ∷ []) count) entry.now.section entry.now.number
        (table_view entry.now.table.now)
        (key field (Names limit) no_names)) }
{
    let Some(value) = entry.found(field) else {
        return Ok(with_defaults(Vec::new(alloc), letter, count)?);
    };
    let given = name_array(alloc, entry.place(field), value, count)?;
    Ok(with_defaults(given, letter, count)?)
}
