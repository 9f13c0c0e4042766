//! Whether a field of a group in a state's text keeps the rules.

ghost use Rattle.std.specs.Prelude.{◌≡◌, ◌<◌, length};
ghost use Rattle.plant_core.specs.StateText.{state_size};
ghost use Rattle.plant_core.specs.StateFault.{count_in, entry_dest_in, entry_source_in};
ghost use Rattle.plant_core.specs.StateFault.{is_before, entry_dest_holds, entry_source_holds};
ghost use Rattle.plant_core.specs.ReadParts.{change_in};

use crate::read_fields::{
    four_at, has_short_number, has_short_source_number, is_of_level, place_of_entry,
    place_of_group, some_source_at, two_at,
};
use plant_config::{Change, DestId, Plant, SourceId};
use salvo_groups::{GROUPS, MAX_ENTRIES};

/// How many changes a group has.
#[tactic(auto, unfolding(crate::specs::StateFault::count_in))]
pub(crate) fn count_in(plant: &Plant, bytes: &[u8], group: u8) -> u16
    requires size { length bytes.now ≡ state_size plant.now }
    requires group { group < GROUPS }
    ensures { result ≡ count_in plant.now bytes.now group }
{
    two_at(bytes, place_of_group(plant, group))
}

/// A change of a group is of a destination that has a number up to 1023 and no earlier change in the group. An unused place
/// has 0 there.
#[tactic(auto, unfolding(crate::specs::StateFault::entry_dest_holds))]
pub(crate) fn entry_dest_holds(plant: &Plant, bytes: &[u8], group: u8, index: usize) -> bool
    requires size { length bytes.now ≡ state_size plant.now }
    requires group { group < GROUPS }
    requires index { index < MAX_ENTRIES }
    ensures { result ≡ entry_dest_holds plant.now bytes.now group index }
{
    let dest = dest_in(plant, bytes, group, index);
    if index >= usize::from(count_in(plant, bytes, group)) {
        return dest.get() == 0;
    }
    if !has_short_number(plant, dest) {
        return false;
    }
    !is_before(plant, bytes, group, index, dest)
}

/// Its source is none, or of the destination's level with a number up to 1022. An unused place has 0 there.
#[tactic(auto, unfolding(crate::specs::StateFault::entry_source_holds))]
pub(crate) fn entry_source_holds(plant: &Plant, bytes: &[u8], group: u8, index: usize) -> bool
    requires size { length bytes.now ≡ state_size plant.now }
    requires group { group < GROUPS }
    requires index { index < MAX_ENTRIES }
    ensures { result ≡ entry_source_holds plant.now bytes.now group index }
{
    if index >= usize::from(count_in(plant, bytes, group)) {
        return four_at(bytes, place_of_entry(plant, group, index) + 4) == 0;
    }
    let Some(source) = source_in(plant, bytes, group, index) else {
        return true;
    };
    if !is_of_level(plant, dest_in(plant, bytes, group, index), source) {
        return false;
    }
    has_short_source_number(plant, source)
}

/// The change at a place of a group.
pub(crate) fn change_in(plant: &Plant, bytes: &[u8], group: u8, index: usize) -> Change
    requires size { length bytes.now ≡ state_size plant.now }
    requires group { group < GROUPS }
    requires index { index < MAX_ENTRIES }
    ensures { result ≡ change_in plant.now bytes.now group index }
{
    Change {
        dest: dest_in(plant, bytes, group, index),
        source: source_in(plant, bytes, group, index),
    }
}

// The destination of a place of a group.
#[tactic(auto, unfolding(crate::specs::StateFault::entry_dest_in))]
fn dest_in(plant: &Plant, bytes: &[u8], group: u8, index: usize) -> DestId
    requires size { length bytes.now ≡ state_size plant.now }
    requires group { group < GROUPS }
    requires index { index < MAX_ENTRIES }
    ensures { result ≡ entry_dest_in plant.now bytes.now group index }
{
    DestId::of(four_at(bytes, place_of_entry(plant, group, index)))
}

// Its source.
#[tactic(auto, unfolding(crate::specs::StateFault::entry_source_in))]
fn source_in(plant: &Plant, bytes: &[u8], group: u8, index: usize) -> Option<SourceId>
    requires size { length bytes.now ≡ state_size plant.now }
    requires group { group < GROUPS }
    requires index { index < MAX_ENTRIES }
    ensures { result ≡ entry_source_in plant.now bytes.now group index }
{
    some_source_at(bytes, place_of_entry(plant, group, index) + 4)
}

// An earlier change of a group is of this destination.
#[tactic(auto, unfolding(crate::specs::StateFault::is_before))]
fn is_before(plant: &Plant, bytes: &[u8], group: u8, index: usize, dest: DestId) -> bool
    requires size { length bytes.now ≡ state_size plant.now }
    requires group { group < GROUPS }
    requires index { index < MAX_ENTRIES }
    ensures { result ≡ is_before plant.now bytes.now group index dest }
{
    for earlier in 0..index {
        if dest_in(plant, bytes, group, earlier) == dest {
            return true;
        }
    }
    false
}
