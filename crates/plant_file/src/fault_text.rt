//! A fault as it is printed.

ghost use Rattle.std.specs.Prelude.{◌≡◌, IfOk, string_bytes};
ghost use Rattle.plant_file.specs.declared.fault.PlantFault.TheVariants.{OutOfRange};
ghost use Rattle.plant_file.specs.FaultText.{place_text, fault_text};

use crate::fault::{Place, PlantFault};
use std::alloc::{AllocError, Global};

// Where a fault is.
fn place_text(alloc: Global, at: Place) -> Result<String, AllocError>
    ensures { IfOk result (λ text. string_bytes text ≡ place_text at) }
{
    let section = at.section.key();
    let field = at.field.key();
    let entry = at.entry;
    let text = format!(in alloc; " at {section} {entry} {field}")?;
    Ok(text)
}

// What is out of its range, and where.
fn range_text(
    alloc: Global,
    at: Place,
    value: i64,
    low: i64,
    high: i64,
) -> Result<String, AllocError>
    ensures { IfOk result
        (λ text. string_bytes text ≡ fault_text (OutOfRange at value low high)) }
{
    let place = place_text(alloc, at)?;
    let text = format!(in alloc; "OutOfRange{place}: {value} not in {low} to {high}")?;
    Ok(text)
}

impl PlantFault {
    /// The fault in one line, with its place.
    #[tactic(auto, unfolding(crate::specs::FaultText::fault_text))]
    pub fn text(&self, alloc: Global) -> Result<String, AllocError>
        ensures { IfOk result (λ text. string_bytes text ≡ fault_text self.now) }
    {
        let (word, at) = match *self {
            PlantFault::NoMemory => return String::from_str(alloc, "NoMemory"),
            PlantFault::NotToml => return String::from_str(alloc, "NotToml"),
            PlantFault::OutOfRange {
                at,
                value,
                low,
                high,
            } => return range_text(alloc, at, value, low, high),
            PlantFault::Missing { at } => ("Missing", at),
            PlantFault::WrongType { at } => ("WrongType", at),
            PlantFault::Twice { at } => ("Twice", at),
            PlantFault::NoSuchThing { at } => ("NoSuchThing", at),
            PlantFault::NoPool { at } => ("NoPool", at),
            PlantFault::NotLocal { at } => ("NotLocal", at),
        };
        let place = place_text(alloc, at)?;
        format!(in alloc; "{word}{place}")
    }
}
