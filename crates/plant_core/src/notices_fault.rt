//! The first notices of a panel in a state's text that are more than they may be.

ghost use Rattle.std.specs.Prelude.{◌≡◌, ℕ, ◌+◌, ◌<◌, ◌≤◌, ◌==◌, if◌then◌else◌};
ghost use Rattle.std.specs.Prelude.{length, true, None, IsTrue};
ghost use Rattle.plant_config.specs.Plant.{destinations_of};
ghost use Rattle.plant_config.specs.IsPlant.{IsPlant};
ghost use Rattle.plant_core.specs.StateText.{state_size};
ghost use Rattle.plant_core.specs.StateFields.{byte_at, place_of_panel, place_of_notices};
ghost use Rattle.plant_core.specs.StateFault.{first_broken, fields_of_each, notices_fields};
ghost use Rattle.plant_core.specs.StateFault.{most_notices, has_short_number};

use crate::read_fields::{byte_at, place_of_panel};
use crate::shown_fields::notices_hold;
use plant_config::{DestId, Plant};

/// Of a panel's notices of all destinations.
pub(crate) fn all_notices_fault(plant: &Plant, bytes: &[u8], panel: usize) -> Option<usize>
    requires size { length bytes.now ≡ state_size plant.now }
    requires panel { panel < length plant.now.panels }
    ensures { result ≡ first_broken (fields_of_each (destinations_of plant.now)
        (notices_fields plant.now bytes.now panel)) }
{
    let few = few_notices(byte_at(bytes, place_of_panel(plant, panel)));
    let count = plant.destination_count();
    for place in 0..count / 64 {
        if let Some(fault) = fault_of_64(plant, bytes, panel, 64 * place, few) {
            return Some(fault);
        }
    }
    fault_below(plant, bytes, panel, 64 * (count / 64), count, few)
}

// So many notices every destination may have: none where the panel has left.
fn few_notices(left: u8) -> u8
    ensures { result ≡ (if left == 1 then 0 else 1) }
{
    if left == 1 { 0 } else { 1 }
}

// Of those of 64 destinations, where those before hold.
fn fault_of_64(plant: &Plant, bytes: &[u8], panel: usize, first: u32, few: u8) -> Option<usize>
    requires plant { IsPlant plant.now }
    requires size { length bytes.now ≡ state_size plant.now }
    requires panel { panel < length plant.now.panels }
    requires first { first + 64 ≤ destinations_of plant.now }
    requires few { few ≡ (if byte_at bytes.now (place_of_panel plant.now panel) == 1 then 0
        else 1) }
    requires before { first_broken
        (fields_of_each first (notices_fields plant.now bytes.now panel)) ≡ None }
    ensures { result ≡ first_broken
        (fields_of_each (first + 64) (notices_fields plant.now bytes.now panel)) }
{
    if hold_at_once(plant, bytes, panel, first, few) {
        return None;
    }
    fault_below(plant, bytes, panel, first, first + 64, few)
}

// Whether those of 64 destinations hold, as far as their greatest byte tells.
fn hold_at_once(plant: &Plant, bytes: &[u8], panel: usize, first: u32, few: u8) -> bool
    requires size { length bytes.now ≡ state_size plant.now }
    requires panel { panel < length plant.now.panels }
    requires first { first + 64 ≤ destinations_of plant.now }
    requires few { few ≡ (if byte_at bytes.now (place_of_panel plant.now panel) == 1 then 0
        else 1) }
    ensures { IsTrue result → (more : ℕ) → more < 64
        → None ≡ first_broken (notices_fields plant.now bytes.now panel (first + more)) }
{
    let most = greatest(bytes, place_of_panel(plant, panel) + 1 + first as usize);
    if most <= few {
        return true;
    }
    if few == 0 || most > 3 {
        return false;
    }
    are_short(plant, first)
}

// The greatest of 64 bytes, or more.
fn greatest(bytes: &[u8], place: usize) -> u8
    requires { place + 64 ≤ length bytes.now }
    ensures { (at : ℕ) → at < 64 → byte_at bytes.now (place + at) ≤ result }
{
    let mut most = 0;
    for at in 0..64 {
        let byte = byte_at(bytes, place + at);
        if most < byte {
            most = byte;
        }
    }
    most
}

// Whether 64 destinations have numbers up to 1023, as far as that of the first tells: that of the next is at most one more.
fn are_short(plant: &Plant, first: u32) -> bool
    requires plant { IsPlant plant.now }
    requires first { first + 64 ≤ destinations_of plant.now }
    ensures { IsTrue result → (more : ℕ) → more < 64
        → has_short_number plant.now (first + more) ≡ true }
{
    plant.point(DestId::of(first)).dest <= 1023 - 63
}

// Of those below a destination, where those before another hold.
fn fault_below(
    plant: &Plant,
    bytes: &[u8],
    panel: usize,
    first: u32,
    end: u32,
    few: u8,
) -> Option<usize>
    requires size { length bytes.now ≡ state_size plant.now }
    requires panel { panel < length plant.now.panels }
    requires first { first ≤ end }
    requires end { end ≤ destinations_of plant.now }
    requires few { few ≡ (if byte_at bytes.now (place_of_panel plant.now panel) == 1 then 0
        else 1) }
    requires before { first_broken
        (fields_of_each first (notices_fields plant.now bytes.now panel)) ≡ None }
    ensures { result ≡ first_broken
        (fields_of_each end (notices_fields plant.now bytes.now panel)) }
{
    let start = place_of_panel(plant, panel);
    for number in first..end {
        let place = start + 1 + number as usize;
        let dest = DestId::of(number);
        if let Some(place) = notices_fault(plant, bytes, panel, dest, place, few) {
            return Some(place);
        }
    }
    None
}

// Of a panel's notices of a destination, at this place.
fn notices_fault(
    plant: &Plant,
    bytes: &[u8],
    panel: usize,
    dest: DestId,
    place: usize,
    few: u8,
) -> Option<usize>
    requires size { length bytes.now ≡ state_size plant.now }
    requires panel { panel < length plant.now.panels }
    requires dest { dest < destinations_of plant.now }
    requires place { place ≡ place_of_notices plant.now panel dest }
    requires few { few ≤ most_notices plant.now bytes.now panel dest }
    ensures { result ≡ first_broken (notices_fields plant.now bytes.now panel dest) }
{
    if byte_at(bytes, place) <= few {
        return None;
    }
    if notices_hold(plant, bytes, panel, dest) {
        None
    } else {
        Some(place)
    }
}
