//! The changes that bring what stands to where nothing stood.

ghost use Rattle.std.specs.Prelude.{◌≡◌, ◌+◌, ◌<◌, length, vec_capacity, IfOk};
ghost use Rattle.plant_config.specs.Plant.{destinations_of};
ghost use Rattle.plant_core.specs.ReadInside.{AreBrought};

use crosspoint_state::Crosspoints;
use plant_config::{Change, DestId, Plant, SourceId};
use std::alloc::{AllocError, Global};

/// One for each destination that isn't parked, in the order of their numbers.
pub(crate) fn brought(
    alloc: Global,
    plant: &Plant,
    points: &Crosspoints,
) -> Result<Vec<Change>, AllocError>
    ensures { IfOk result (λ changes.
        AreBrought points.now.entries (destinations_of plant.now) changes.items) }
{
    let mut changes = Vec::with_capacity(alloc, plant.destination_count() as usize)?;
    for number in 0..plant.destination_count() {
        bring(points, DestId::of(number), &mut changes);
    }
    Ok(changes)
}

// The change of a destination behind those of the destinations before it.
fn bring(points: &Crosspoints, dest: DestId, changes: &mut Vec<Change>)
    requires room { length changes.old.items < vec_capacity changes.old }
    requires before { AreBrought points.now.entries dest changes.old.items }
    ensures brought { AreBrought points.now.entries (dest + 1) changes.new.items }
    ensures room { vec_capacity changes.new ≡ vec_capacity changes.old }
{
    // kit: without the `Option` that is in a change named, a push of it gets no proof.
    let source: Option<SourceId> = points.source_at(dest);
    match source {
        Some(_) => changes.push_reserved(Change { dest, source }),
        None => {}
    }
}
