//! The first field of a state's text that breaks a rule, part by part.

ghost use Rattle.std.specs.Prelude.{◌≡◌, ◌+◌, ◌<◌};
ghost use Rattle.std.specs.Prelude.{length, None, Ok, IfOk};
ghost use Rattle.plant_config.specs.Plant.{destinations_of};
ghost use Rattle.salvo_groups.specs.Limits.{salvo_limit, group_limit};
ghost use Rattle.plant_core.specs.StateText.{state_size};
ghost use Rattle.plant_core.specs.StateFault.{first_broken, fields_of_each, count_fields};
ghost use Rattle.plant_core.specs.StateFault.{dest_fields, entry_fields, group_fields};
ghost use Rattle.plant_core.specs.StateFault.{panel_fields, first_fault};
ghost use Rattle.plant_core.specs.FirstTies.{AreFirstsOf, HoldBelow};

use crate::dest_fields::{owner_holds, source_holds, tie_holds};
use crate::display_fault::displays_fault;
use crate::first_ties::FirstDests;
use crate::group_fields::{count_in, entry_dest_holds, entry_source_holds};
use crate::in_place::dests_fault_in_place;
use crate::notices_fault::all_notices_fault;
use crate::read_fields::{
    byte_at, four_at, place_of_dest, place_of_entry, place_of_group, place_of_panel,
};
use plant_config::{DestId, Plant};
use salvo_groups::{GROUPS, MAX_ENTRIES};
use std::alloc::{AllocError, Global};
use std::collections::BTreeMap;

/// The place of the first field of a text that breaks a rule, `None` where none does.
pub(crate) fn first_fault(alloc: Global, plant: &Plant, bytes: &[u8]) -> Option<usize>
    requires { length bytes.now ≡ state_size plant.now }
    ensures { result ≡ first_fault plant.now bytes.now }
{
    if let Some(place) = counts_fault(plant, bytes) {
        return Some(place);
    }
    if let Some(place) = dests_fault(alloc, plant, bytes) {
        return Some(place);
    }
    if let Some(place) = groups_fault(plant, bytes) {
        return Some(place);
    }
    if let Some(place) = panels_fault(plant, bytes) {
        return Some(place);
    }
    displays_fault(plant, bytes)
}

// Of the four counts.
#[tactic(auto, unfolding(crate::specs::StateFault::count_fields))]
fn counts_fault(plant: &Plant, bytes: &[u8]) -> Option<usize>
    requires { length bytes.now ≡ state_size plant.now }
    ensures { result ≡ first_broken (count_fields plant.now bytes.now) }
{
    if four_at(bytes, 0) != plant.source_count() {
        return Some(0);
    }
    if four_at(bytes, 4) != plant.destination_count() {
        return Some(4);
    }
    if four_at(bytes, 8) != plant.panels().len() as u32 {
        return Some(8);
    }
    if four_at(bytes, 12) != plant.displays().len() as u32 {
        return Some(12);
    }
    None
}

// Of all destinations. Where there is no memory for tables, each looks at all before it.
fn dests_fault(alloc: Global, plant: &Plant, bytes: &[u8]) -> Option<usize>
    requires { length bytes.now ≡ state_size plant.now }
    ensures { result ≡ first_broken (fields_of_each (destinations_of plant.now)
        (dest_fields plant.now bytes.now)) }
{
    match tabled_fault(alloc, plant, bytes) {
        Ok(fault) => fault,
        Err(_) => dests_fault_in_place(plant, bytes),
    }
}

// The same, with the first destinations of each tie and of each origin in tables.
fn tabled_fault(alloc: Global, plant: &Plant, bytes: &[u8]) -> Result<Option<usize>, AllocError>
    requires { length bytes.now ≡ state_size plant.now }
    ensures { IfOk result (λ fault. fault
        ≡ first_broken (fields_of_each (destinations_of plant.now)
        (dest_fields plant.now bytes.now))) }
{
    let mut by_tie = BTreeMap::new(alloc);
    let mut by_origin = BTreeMap::new(alloc);
    for number in 0..plant.destination_count() {
        let dest = DestId::of(number);
        if let Some(place) = dest_fault(plant, bytes, dest, &mut by_tie, &mut by_origin)? {
            return Ok(Some(place));
        }
    }
    Ok(None)
}

// Of a destination.
#[tactic(auto, unfolding(crate::specs::StateFault::dest_fields))]
fn dest_fault(
    plant: &Plant,
    bytes: &[u8],
    dest: DestId,
    by_tie: &mut FirstDests,
    by_origin: &mut FirstDests,
) -> Result<Option<usize>, AllocError>
    requires size { length bytes.now ≡ state_size plant.now }
    requires dest { dest < destinations_of plant.now }
    requires earlier { HoldBelow plant.now bytes.now dest }
    requires firsts { AreFirstsOf plant.now bytes.now dest by_tie.old by_origin.old }
    ensures fault { IfOk result
        (λ fault. fault ≡ first_broken (dest_fields plant.now bytes.now dest)) }
    ensures firsts { result ≡ Ok None
        → AreFirstsOf plant.now bytes.now (dest + 1) by_tie.new by_origin.new }
{
    let place = place_of_dest(dest);
    if !source_holds(plant, bytes, dest) {
        return Ok(Some(place));
    }
    if !tie_holds(plant, bytes, dest, by_tie, by_origin)? {
        return Ok(Some(place + 4));
    }
    if !owner_holds(plant, bytes, dest) {
        return Ok(Some(place + 8));
    }
    Ok(None)
}

// Of all groups.
fn groups_fault(plant: &Plant, bytes: &[u8]) -> Option<usize>
    requires { length bytes.now ≡ state_size plant.now }
    ensures { result ≡ first_broken (fields_of_each salvo_limit
        (group_fields plant.now bytes.now)) }
{
    for group in 0..GROUPS {
        if let Some(place) = group_fault(plant, bytes, group) {
            return Some(place);
        }
    }
    None
}

// Of a group.
#[tactic(auto, unfolding(crate::specs::StateFault::group_fields))]
fn group_fault(plant: &Plant, bytes: &[u8], group: u8) -> Option<usize>
    requires size { length bytes.now ≡ state_size plant.now }
    requires group { group < GROUPS }
    ensures { result ≡ first_broken (group_fields plant.now bytes.now group) }
{
    if usize::from(count_in(plant, bytes, group)) > MAX_ENTRIES {
        return Some(place_of_group(plant, group));
    }
    entries_fault(plant, bytes, group)
}

// Of all places of a group.
fn entries_fault(plant: &Plant, bytes: &[u8], group: u8) -> Option<usize>
    requires size { length bytes.now ≡ state_size plant.now }
    requires group { group < GROUPS }
    ensures { result ≡ first_broken (fields_of_each group_limit
        (entry_fields plant.now bytes.now group)) }
{
    for index in 0..MAX_ENTRIES {
        if let Some(place) = entry_fault(plant, bytes, group, index) {
            return Some(place);
        }
    }
    None
}

// Of a place of a group.
#[tactic(auto, unfolding(crate::specs::StateFault::entry_fields))]
fn entry_fault(plant: &Plant, bytes: &[u8], group: u8, index: usize) -> Option<usize>
    requires size { length bytes.now ≡ state_size plant.now }
    requires group { group < GROUPS }
    requires index { index < MAX_ENTRIES }
    ensures { result ≡ first_broken (entry_fields plant.now bytes.now group index) }
{
    let place = place_of_entry(plant, group, index);
    if !entry_dest_holds(plant, bytes, group, index) {
        return Some(place);
    }
    if !entry_source_holds(plant, bytes, group, index) {
        return Some(place + 4);
    }
    None
}

// Of all panels.
fn panels_fault(plant: &Plant, bytes: &[u8]) -> Option<usize>
    requires { length bytes.now ≡ state_size plant.now }
    ensures { result ≡ first_broken (fields_of_each (length plant.now.panels)
        (panel_fields plant.now bytes.now)) }
{
    for panel in 0..plant.panels().len() {
        if let Some(place) = panel_fault(plant, bytes, panel) {
            return Some(place);
        }
    }
    None
}

// Of a panel.
#[tactic(auto, unfolding(crate::specs::StateFault::panel_fields))]
fn panel_fault(plant: &Plant, bytes: &[u8], panel: usize) -> Option<usize>
    requires size { length bytes.now ≡ state_size plant.now }
    requires panel { panel < length plant.now.panels }
    ensures { result ≡ first_broken (panel_fields plant.now bytes.now panel) }
{
    let place = place_of_panel(plant, panel);
    if byte_at(bytes, place) > 1 {
        return Some(place);
    }
    all_notices_fault(plant, bytes, panel)
}
