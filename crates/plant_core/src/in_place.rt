//! The first field of a destination in a state's text that breaks a rule, found without memory: each destination looks at
//! all before it.

ghost use Rattle.std.specs.Prelude.{◌≡◌, ◌+◌, ◌<◌, ◌≤◌, length};
ghost use Rattle.plant_config.specs.Plant.{destinations_of};
ghost use Rattle.plant_core.specs.StateText.{state_size};
ghost use Rattle.plant_core.specs.StateFields.{place_of_dest};
ghost use Rattle.plant_core.specs.StateFault.{first_broken, fields_of_each, dest_fields};
ghost use Rattle.plant_core.specs.StateFault.{tie_holds, all_share_by_origin};

use crate::dest_fields::{owner_holds, pool_in, shares_by_origin, source_holds, tie_in};
use crate::read_fields::place_of_dest;
use plant_config::{DestId, Plant};

/// Of all destinations.
pub(crate) fn dests_fault_in_place(plant: &Plant, bytes: &[u8]) -> Option<usize>
    requires { length bytes.now ≡ state_size plant.now }
    ensures { result ≡ first_broken (fields_of_each (destinations_of plant.now)
        (dest_fields plant.now bytes.now)) }
{
    for number in 0..plant.destination_count() {
        if let Some(place) = dest_fault(plant, bytes, DestId::of(number)) {
            return Some(place);
        }
    }
    None
}

// Of a destination.
#[tactic(auto, unfolding(crate::specs::StateFault::dest_fields))]
fn dest_fault(plant: &Plant, bytes: &[u8], dest: DestId) -> Option<usize>
    requires size { length bytes.now ≡ state_size plant.now }
    requires dest { dest < destinations_of plant.now }
    ensures { result ≡ first_broken (dest_fields plant.now bytes.now dest) }
{
    let place = place_of_dest(dest);
    if !source_holds(plant, bytes, dest) {
        return Some(place);
    }
    if !tie_holds(plant, bytes, dest) {
        return Some(place + 4);
    }
    if !owner_holds(plant, bytes, dest) {
        return Some(place + 8);
    }
    None
}

// There is a tie exactly where the source is remote. It is one that the pool has, and shared as ties are.
#[tactic(auto, unfolding(crate::specs::StateFault::tie_holds))]
fn tie_holds(plant: &Plant, bytes: &[u8], dest: DestId) -> bool
    requires { place_of_dest dest + 10 ≤ length bytes.now }
    ensures { result ≡ tie_holds plant.now bytes.now dest }
{
    let tie = tie_in(bytes, dest);
    let Some(pool) = pool_in(plant, bytes, dest) else {
        return tie.is_none();
    };
    let Some(tie) = tie else {
        return false;
    };
    if tie.get() >= plant.pool(pool).ties {
        return false;
    }
    all_share_by_origin(plant, bytes, dest)
}

// The destination shares its tie with all earlier ones as ties are shared.
#[tactic(auto, unfolding(crate::specs::StateFault::all_share_by_origin))]
fn all_share_by_origin(plant: &Plant, bytes: &[u8], dest: DestId) -> bool
    requires { place_of_dest dest + 10 ≤ length bytes.now }
    ensures { result ≡ all_share_by_origin plant.now bytes.now dest }
{
    for earlier in 0..dest.get() {
        if !shares_by_origin(plant, bytes, dest, DestId::of(earlier)) {
            return false;
        }
    }
    true
}
