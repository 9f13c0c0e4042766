//! The values of keys: each is read, or its first fault is found.

ghost use Rattle.std.specs.Prelude.{not, find, ◌≡◌, ◌<◌, ◌≤◌, ◌^◌, length, IfOk, Some};
ghost use Rattle.toml.specs.View.{view};
ghost use Rattle.plant_file.specs.Rows.{Number, Words, Flag};
ghost use Rattle.plant_file.specs.Document.{as_number, as_text, as_flag};
ghost use Rattle.plant_file.specs.FirstFault.{first_fault};
ghost use Rattle.plant_file.specs.KeyFaults.{range_faults, text_faults};
ghost use Rattle.plant_file.specs.ReadingInside.{is_printable, read_as, value_answer, up_to_answer};

use crate::fault::{Place, PlantFault};
use toml::Value;

// The bytes of a text are from the first to the last of these.
const FIRST_PRINTABLE: u64 = 32;

const LAST_PRINTABLE: u64 = 126;

// A number that isn't from `low` to `high`.
pub(crate) fn range_fault(at: Place, value: i64, low: u64, high: u64) -> Option<PlantFault>
    requires low { low < 2 ^ 63 }
    requires high { high < 2 ^ 63 }
    ensures { result ≡ first_fault (range_faults at value low high) }
{
    let low = low as i64;
    let high = high as i64;
    if low <= value && value <= high {
        None
    } else {
        Some(PlantFault::OutOfRange {
            at,
            value,
            low,
            high,
        })
    }
}

fn is_printable(byte: u8) -> bool
    ensures { result ≡ is_printable byte }
{
    FIRST_PRINTABLE <= u64::from(byte) && u64::from(byte) <= LAST_PRINTABLE
}

// The first byte of a text that isn't printable.
fn unprintable(text: &[u8]) -> Option<u8>
    ensures { result ≡ find (λ byte. not (is_printable byte)) text.now }
{
    text.iter().copied().find(|byte| !is_printable(*byte))
}

// A text that is too short or too long, or has a byte that isn't printable.
fn text_fault(at: Place, text: &[u8], low: u64, high: u64) -> Option<PlantFault>
    requires low { low < 2 ^ 63 }
    requires high { high < 2 ^ 63 }
    ensures { result ≡ first_fault (text_faults at low high text.now) }
{
    if let Some(fault) = range_fault(at, text.len() as i64, low, high) {
        return Some(fault);
    }
    match unprintable(text) {
        Some(byte) => range_fault(at, i64::from(byte), FIRST_PRINTABLE, LAST_PRINTABLE),
        None => None,
    }
}

// A number from `low` to `high`.
pub(crate) fn number(at: Place, value: &Value, low: u64, high: u64) -> Result<u64, PlantFault>
    requires low { low < 2 ^ 63 }
    requires high { high < 2 ^ 63 }
    ensures answer { result ≡ value_answer as_number at (Number low high) (view value.now) }
    ensures within { IfOk result (λ number. number ≤ high) }
{
    match value.as_integer() {
        None => Err(PlantFault::WrongType { at }),
        Some(value) => match range_fault(at, value, low, high) {
            Some(fault) => Err(fault),
            None => Ok(value as u64),
        },
    }
}

// A number from 0, to `high` and then to `bound`.
#[tactic(auto, using(crate::proofs::UpToAnswer::up_to))]
pub(crate) fn number_up_to(
    at: Place,
    value: &Value,
    high: u64,
    bound: u64,
) -> Result<u64, PlantFault>
    requires high { high < 2 ^ 63 }
    requires bound { bound < 2 ^ 63 }
    ensures answer { result ≡ up_to_answer at high bound (view value.now) }
    ensures within { IfOk result (λ number. number ≤ high) }
{
    match number(at, value, 0, high) {
        Err(fault) => Err(fault),
        Ok(number) => match range_fault(at, number as i64, 0, bound) {
            Some(fault) => Err(fault),
            None => Ok(number),
        },
    }
}

// A text of `low` to `high` bytes, each of them printable.
pub(crate) fn words(at: Place, value: &Value, low: u64, high: u64) -> Result<&str, PlantFault>
    requires low { low < 2 ^ 63 }
    requires high { high < 2 ^ 63 }
    ensures answer { read_as (λ text. text.now) result
        ≡ value_answer as_text at (Words low high) (view value.now) }
    ensures within { IfOk result (λ text. length text.now ≤ high) }
{
    match value.as_str() {
        None => Err(PlantFault::WrongType { at }),
        Some(text) => match text_fault(at, text.as_bytes(), low, high) {
            Some(fault) => Err(fault),
            None => Ok(text),
        },
    }
}

// True or false.
pub(crate) fn flag(at: Place, value: &Value) -> Result<bool, PlantFault>
    ensures { result ≡ value_answer as_flag at Flag (view value.now) }
{
    match value.as_bool() {
        None => Err(PlantFault::WrongType { at }),
        Some(flag) => Ok(flag),
    }
}
