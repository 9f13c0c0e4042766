//! How a section stands in a document.

ghost use Rattle.std.specs.Prelude.{◌≡◌, ◌<◌, ◌≤◌, ◌^◌, length, IfOk, option_map};
ghost use Rattle.toml.specs.Data.{get_member};
ghost use Rattle.toml.specs.View.{view, table_view};
ghost use Rattle.plant_file.specs.ReadingInside.{read_as, tables, are_tables, form_answer};

use crate::fault::{Field, Place, PlantFault, Section};
use crate::read::values::range_fault;
use toml::{Table, Value};

// What a table has at a key.
pub(crate) fn found<'a>(table: &'a Table, key: &str) -> Option<&'a Value>
    ensures { option_map (λ value. view value.now) result
        ≡ get_member key.now (table_view table.now) }
{
    table.get(key)
}

// Each of some values is a table.
fn are_tables(items: &[Value]) -> bool
    ensures { result ≡ are_tables items.now }
{
    items.iter().all(Value::is_table)
}

// The tables of a section, of which there are at least and at most so many. An absent section has none.
pub(crate) fn entries(
    document: &Table,
    section: Section,
    least: u64,
    most: u64,
) -> Result<&[Value], PlantFault>
    requires least { least < 2 ^ 63 }
    requires most { most < 2 ^ 63 }
    ensures answer { read_as (λ items. tables items.now) result
        ≡ form_answer section least most (table_view document.now) }
    ensures within { IfOk result (λ items. length items.now ≤ most) }
{
    let at = Place {
        section,
        entry: 0,
        field: Field::Whole,
    };
    let Some(value) = found(document, section.key()) else {
        return match range_fault(at, 0, least, most) {
            Some(fault) => Err(fault),
            None => Ok(&[]),
        };
    };
    let items = match value.as_array() {
        Some(items) if are_tables(items) => items.as_slice(),
        _ => return Err(PlantFault::WrongType { at }),
    };
    match range_fault(at, items.len() as i64, least, most) {
        Some(fault) => Err(fault),
        None => Ok(items),
    }
}
