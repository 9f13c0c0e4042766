//! What destinations carry, and which devices protect them, is read from a state's text.

ghost use Rattle.std.specs.Prelude.{◌≡◌, ◌+◌, ◌<◌, ◌≤◌, None, length, IfOk};
ghost use Rattle.std.specs.FinMap.{get};
ghost use Rattle.crosspoint_state.specs.Table.{put};
ghost use Rattle.plant_config.specs.Plant.{destinations_of};
ghost use Rattle.crosspoint_state.specs.Taps.{ArePointsOf};
ghost use Rattle.plant_core.specs.StateText.{state_size};
ghost use Rattle.plant_core.specs.StateFields.{place_of_dest};
ghost use Rattle.plant_core.specs.ReadInside.{spot_in, owner_in, HaveBelow};

use crate::read_fields::{place_of_dest, some_source_at, some_tie_at, some_two_at};
use crosspoint_state::{Crosspoints, Spot};
use plant_config::{DestId, Plant};
use protects::Protects;
use std::alloc::{AllocError, Global};

/// What each destination carries.
pub(crate) fn read_points(
    alloc: Global,
    plant: &Plant,
    bytes: &[u8],
) -> Result<Crosspoints, AllocError>
    requires { length bytes.now ≡ state_size plant.now }
    ensures each { IfOk result (λ points.
        HaveBelow (destinations_of plant.now) (spot_in bytes.now) points.entries) }
    ensures kept { IfOk result (ArePointsOf plant.now) }
{
    let mut points = Crosspoints::new(alloc, plant)?;
    for number in 0..plant.destination_count() {
        let dest = DestId::of(number);
        points.set(plant, dest, spot_in(bytes, dest));
    }
    Ok(points)
}

// What a destination carries.
#[tactic(auto, unfolding(crate::specs::ReadInside::spot_in, crate::specs::StateFault::source_in, crate::specs::StateFault::tie_in))]
fn spot_in(bytes: &[u8], dest: DestId) -> Option<Spot>
    requires { place_of_dest dest + 10 ≤ length bytes.now }
    ensures { result ≡ spot_in bytes.now dest }
{
    let source = some_source_at(bytes, place_of_dest(dest))?;
    let tie = some_tie_at(bytes, place_of_dest(dest) + 4);
    Some(Spot { source, tie })
}

/// Which device protects each destination, of which there are so many.
pub(crate) fn read_owners(
    alloc: Global,
    destinations: u32,
    bytes: &[u8],
) -> Result<Protects, AllocError>
    requires { place_of_dest destinations ≤ length bytes.now }
    ensures each { IfOk result (λ protects.
        HaveBelow destinations (owner_in bytes.now) protects.entries) }
    ensures room { IfOk result (λ protects. protects.room ≡ destinations) }
{
    let mut protects = Protects::new(alloc, destinations)?;
    for number in 0..destinations {
        read_owner(bytes, DestId::of(number), &mut protects);
    }
    Ok(protects)
}

// The device of a destination that none protects yet.
fn read_owner(bytes: &[u8], dest: DestId, protects: &mut Protects)
    requires place { place_of_dest dest + 10 ≤ length bytes.now }
    requires dest { dest < protects.old.room }
    requires free { get protects.old.entries dest ≡ None }
    ensures owner { protects.new.entries
        ≡ put protects.old.entries dest (owner_in bytes.now dest) }
    ensures room { protects.new.room ≡ protects.old.room }
{
    match owner_in(bytes, dest) {
        Some(device) => {
            let _allowed = protects.protect(device, dest);
        }
        None => {}
    }
}

// Which device protects a destination.
#[tactic(auto, unfolding(crate::specs::ReadInside::owner_in))]
fn owner_in(bytes: &[u8], dest: DestId) -> Option<u16>
    requires { place_of_dest dest + 10 ≤ length bytes.now }
    ensures { result ≡ owner_in bytes.now dest }
{
    some_two_at(bytes, place_of_dest(dest) + 8)
}
