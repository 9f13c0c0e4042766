//! The text of a state is written, part by part.

ghost use Rattle.std.specs.Prelude.{◌≡◌, ◌+◌, ◌*◌, ◌<◌, ◌≤◌, ◌++◌, length, slice_get};
ghost use Rattle.std.specs.Prelude.{vec_len, vec_capacity};
ghost use Rattle.plant_config.specs.Plant.{destinations_of};
ghost use Rattle.salvo_groups.specs.Limits.{salvo_limit, group_limit};
ghost use Rattle.salvo_groups.specs.Groups.{group_of};
ghost use Rattle.change_boards.specs.Notices.{board_of};
ghost use Rattle.change_boards.specs.Shown.{last};
ghost use Rattle.plant_core.specs.StateText.{counts_text, dest_text, group_text};
ghost use Rattle.plant_core.specs.StateText.{panel_text, display_text, state_size, state_text};
ghost use Rattle.plant_core.specs.StateText.{texts_of};

use crate::state::PlantState;
use crate::write_fields::{
    left_of, write_display, write_entry, write_number, write_owner, write_spot, write_word,
};
use crate::write_notices::write_notices;
use change_boards::{Notices, Shown};
use crosspoint_state::Crosspoints;
use plant_config::{Change, DestId, DisplayId, PanelNo, Plant};
use protects::Protects;
use salvo_groups::{GROUPS, Groups, MAX_ENTRIES};

/// How many bytes the text of each state of a plant has: at most 5,140,816.
#[tactic(auto, using(crate::proofs::StateTextLemmas::panels_fit))]
pub fn state_size(plant: &Plant) -> usize
    ensures { result ≡ state_size plant.now }
{
    let destinations = plant.destination_count() as usize;
    let groups = usize::from(GROUPS) * (2 + 8 * MAX_ENTRIES);
    let panels = plant.panels().len() * (1 + destinations);
    16 + 10 * destinations + groups + panels + 7 * plant.displays().len()
}

impl PlantState {
    /// Puts the text of the state behind what stands in `out`. There is room for it: this takes no memory.
    pub fn write_state(&self, out: &mut Vec<u8>)
        requires room { vec_len out.old + state_size self.now.plant ≤ vec_capacity out.old }
        ensures text { out.new.items ≡ out.old.items ++ state_text self.now }
        ensures len { vec_len out.new ≡ vec_len out.old + state_size self.now.plant }
        ensures room { vec_capacity out.new ≡ vec_capacity out.old }
    {
        write_counts(&self.plant, out);
        write_destinations(&self.plant, &self.crosspoints, &self.protects, out);
        write_groups(&self.groups, out);
        write_panels(&self.plant, &self.notices, out);
        write_displays(&self.plant, &self.shown, out);
    }
}

// How many sources, destinations, panels and displays the plant has.
fn write_counts(plant: &Plant, out: &mut Vec<u8>)
    requires room { vec_len out.old + 16 ≤ vec_capacity out.old }
    ensures text { out.new.items ≡ out.old.items ++ counts_text plant.now }
    ensures len { vec_len out.new ≡ vec_len out.old + 16 }
    ensures room { vec_capacity out.new ≡ vec_capacity out.old }
{
    write_number(plant.source_count(), out);
    write_number(plant.destination_count(), out);
    write_number(plant.panels().len() as u32, out);
    write_number(plant.displays().len() as u32, out);
}

// What each destination carries, and who protects it.
fn write_destinations(plant: &Plant, points: &Crosspoints, protects: &Protects, out: &mut Vec<u8>)
    requires room { vec_len out.old + 10 * destinations_of plant.now ≤ vec_capacity out.old }
    ensures text { out.new.items ≡ out.old.items ++ texts_of (destinations_of plant.now)
        (dest_text points.now.entries protects.now.entries) }
    ensures len { vec_len out.new ≡ vec_len out.old + 10 * destinations_of plant.now }
    ensures room { vec_capacity out.new ≡ vec_capacity out.old }
{
    for number in 0..plant.destination_count() {
        write_destination(points, protects, DestId::of(number), out);
    }
}

// What a destination carries, and who protects it.
fn write_destination(points: &Crosspoints, protects: &Protects, dest: DestId, out: &mut Vec<u8>)
    requires room { vec_len out.old + 10 ≤ vec_capacity out.old }
    ensures text { out.new.items
        ≡ out.old.items ++ dest_text points.now.entries protects.now.entries dest }
    ensures len { vec_len out.new ≡ vec_len out.old + 10 }
    ensures room { vec_capacity out.new ≡ vec_capacity out.old }
{
    write_spot(points.at(dest), out);
    write_owner(protects.owner(dest), out);
}

// All salvo groups.
fn write_groups(groups: &Groups, out: &mut Vec<u8>)
    requires room { vec_len out.old + salvo_limit * (2 + 8 * group_limit) ≤ vec_capacity out.old }
    ensures text { out.new.items ≡ out.old.items
        ++ texts_of salvo_limit (λ group. group_text (group_of groups.now group)) }
    ensures len { vec_len out.new ≡ vec_len out.old + salvo_limit * (2 + 8 * group_limit) }
    ensures room { vec_capacity out.new ≡ vec_capacity out.old }
{
    for group in 0..GROUPS {
        write_group(groups.entries(group), out);
    }
}

// A group: how many changes it has, and all of its places.
fn write_group(entries: &[Change], out: &mut Vec<u8>)
    requires few { length entries.now ≤ group_limit }
    requires room { vec_len out.old + (2 + 8 * group_limit) ≤ vec_capacity out.old }
    ensures text { out.new.items ≡ out.old.items ++ group_text entries.now }
    ensures len { vec_len out.new ≡ vec_len out.old + (2 + 8 * group_limit) }
    ensures room { vec_capacity out.new ≡ vec_capacity out.old }
{
    write_word(entries.len() as u16, out);
    for index in 0..MAX_ENTRIES {
        write_entry(change_at(entries, index), out);
    }
}

// A change of a group by its place, `None` where the place is unused.
fn change_at(entries: &[Change], index: usize) -> Option<Change>
    ensures { result ≡ slice_get entries.now index }
{
    entries.get(index).copied()
}

// All panels.
fn write_panels(plant: &Plant, notices: &Notices, out: &mut Vec<u8>)
    requires panels { length notices.now ≡ length plant.now.panels }
    requires room { vec_len out.old + length plant.now.panels * (1 + destinations_of plant.now)
        ≤ vec_capacity out.old }
    ensures text { out.new.items ≡ out.old.items ++ texts_of (length plant.now.panels)
        (λ panel. panel_text (destinations_of plant.now) (board_of notices.now panel)) }
    ensures len { vec_len out.new
        ≡ vec_len out.old + length plant.now.panels * (1 + destinations_of plant.now) }
    ensures room { vec_capacity out.new ≡ vec_capacity out.old }
{
    for number in 0..plant.panels().len() {
        write_panel(plant, notices, PanelNo::of(number as u32), out);
    }
}

// A panel: whether it has left, and its notices of each destination.
fn write_panel(plant: &Plant, notices: &Notices, panel: PanelNo, out: &mut Vec<u8>)
    requires panel { panel < length notices.now }
    requires room { vec_len out.old + (1 + destinations_of plant.now) ≤ vec_capacity out.old }
    ensures text { out.new.items ≡ out.old.items
        ++ panel_text (destinations_of plant.now) (board_of notices.now panel) }
    ensures len { vec_len out.new ≡ vec_len out.old + (1 + destinations_of plant.now) }
    ensures room { vec_capacity out.new ≡ vec_capacity out.old }
{
    out.push_reserved(left_of(notices, panel));
    write_notices(notices, panel, plant.destination_count(), out);
}

// All displays.
fn write_displays(plant: &Plant, shown: &Shown, out: &mut Vec<u8>)
    requires displays { length shown.now ≡ length plant.now.displays }
    requires room { vec_len out.old + 7 * length plant.now.displays ≤ vec_capacity out.old }
    ensures text { out.new.items ≡ out.old.items ++ texts_of (length plant.now.displays)
        (λ display. display_text (last shown.now display)) }
    ensures len { vec_len out.new ≡ vec_len out.old + 7 * length plant.now.displays }
    ensures room { vec_capacity out.new ≡ vec_capacity out.old }
{
    for number in 0..plant.displays().len() {
        write_display(shown.last(DisplayId::of(number as u32)), out);
    }
}
