//! What a plant has, in lines.

ghost use Rattle.std.specs.Prelude.{◌≡◌, ◌≤◌, ◌++◌, length, sum_by, codes};
ghost use Rattle.std.specs.Prelude.{decimal, IfOk, OnOk, string_bytes};
ghost use Rattle.command_rows.specs.Lines.{line};
ghost use Rattle.command_check.specs.Check.{check_text};

use plant_config::{Plant, Pool};
use std::alloc::{AllocError, Global};

// The lines, one for each kind of thing.
pub(crate) fn check_text(alloc: Global, plant: &Plant) -> Result<String, AllocError>
    ensures { IfOk result (λ text. string_bytes text ≡ check_text plant.now) }
{
    let title = plant.title().as_str();
    let mut text = format!(in alloc; "plant {title}\n")?;
    push_count(alloc, &mut text, "levels", plant.levels().len())?;
    push_count(alloc, &mut text, "sources", plant.source_count() as usize)?;
    push_count(
        alloc,
        &mut text,
        "destinations",
        plant.destination_count() as usize,
    )?;
    push_count(alloc, &mut text, "pools", plant.pools().len())?;
    push_count(alloc, &mut text, "ties", ties_of(plant.pools()))?;
    push_count(alloc, &mut text, "devices", plant.devices().len())?;
    push_count(alloc, &mut text, "buses", plant.buses().len())?;
    push_count(alloc, &mut text, "displays", plant.displays().len())?;
    push_count(alloc, &mut text, "panels", plant.panels().len())?;
    Ok(text)
}

// Appends the line that says how many there are of a kind of thing.
fn push_count(alloc: Global, text: &mut String, kind: &str, count: usize) -> Result<(), AllocError>
    ensures { OnOk result (string_bytes text.new
        ≡ string_bytes text.old ++ line (kind.now ++ codes " " ++ decimal count)) }
{
    let line = format!(in alloc; "{kind} {count}\n")?;
    text.push_str(line.as_str())?;
    Ok(())
}

// How many tie-lines these pools have.
fn ties_of(pools: &[Pool]) -> usize
    requires { length pools.now ≤ 256 }
    ensures { result ≡ sum_by (λ pool. pool.ties) pools.now }
{
    pools.iter().map(|pool| pool.ties as usize).sum()
}
