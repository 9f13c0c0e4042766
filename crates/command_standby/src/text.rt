//! What is said of a standby at the end.

ghost use Rattle.std.specs.Prelude.{◌≡◌, ◌<◌, ◌++◌, codes, decimal, string_bytes, IfOk, OnOk};
ghost use Rattle.plant_config.specs.Plant.{destinations_of};
ghost use Rattle.command_rows.specs.Lines.{line};
ghost use Rattle.command_standby.specs.Standing.{crosspoints_text, dest_text, standing_text};

use crate::follow::Passed;
use plant_config::{DestId, Plant};
use plant_core::PlantState;
use standby::Standby;
use std::alloc::{AllocError, Global};

// Its numbers, and what each destination carries.
pub(crate) fn standing_text(
    alloc: Global,
    plant: &Plant,
    standby: &Standby,
    passed: &Passed,
) -> Result<String, AllocError>
    requires { standby.now.state.plant ≡ plant.now }
    ensures { IfOk result
        (λ text. string_bytes text ≡ standing_text standby.now passed.now) }
{
    let applied = standby.applied();
    let mut text = format!(in alloc; "applied {applied}\n")?;
    push_count(alloc, &mut text, "kept", standby.kept())?;
    push_count(alloc, &mut text, "old", passed.old_count)?;
    push_count(alloc, &mut text, "beyond", passed.beyond_count)?;
    push_crosspoints(alloc, &mut text, plant, standby.state())?;
    Ok(text)
}

// Appends the line of a count.
fn push_count(alloc: Global, text: &mut String, kind: &str, count: u64) -> Result<(), AllocError>
    ensures { OnOk result (string_bytes text.new
        ≡ string_bytes text.old ++ line (kind.now ++ codes " " ++ decimal count)) }
{
    let line = format!(in alloc; "{kind} {count}\n")?;
    text.push_str(line.as_str())?;
    Ok(())
}

// Appends the lines of all destinations that carry a source, in the order of their numbers in the plant.
fn push_crosspoints(
    alloc: Global,
    text: &mut String,
    plant: &Plant,
    state: &PlantState,
) -> Result<(), AllocError>
    requires { state.now.plant ≡ plant.now }
    ensures { OnOk result (string_bytes text.new
        ≡ string_bytes text.old ++ crosspoints_text state.now) }
{
    for dest in 0..plant.destination_count() {
        push_dest(alloc, text, plant, state, DestId::of(dest))?;
    }
    Ok(())
}

// Appends that of a destination, if it carries a source.
fn push_dest(
    alloc: Global,
    text: &mut String,
    plant: &Plant,
    state: &PlantState,
    dest: DestId,
) -> Result<(), AllocError>
    requires plant { state.now.plant ≡ plant.now }
    requires dest { dest < destinations_of plant.now }
    ensures { OnOk result (string_bytes text.new
        ≡ string_bytes text.old ++ dest_text state.now dest) }
{
    let Some(source) = state.source_at(dest) else {
        return Ok(());
    };
    let at = plant.point(dest);
    let (matrix, level, number) = (at.matrix, at.level, at.dest);
    let source = plant.source_number(source);
    let line = format!(in alloc; "at {matrix} {level} {number} {source}\n")?;
    text.push_str(line.as_str())?;
    Ok(())
}
