//! The fields of a state's text are read, and what they name is looked up in the plant.

ghost use Rattle.std.specs.Prelude.{◌≡◌, ◌+◌, ◌*◌, ◌<◌, ◌≤◌, length};
ghost use Rattle.plant_config.specs.IsPlant.{IsPlant};
ghost use Rattle.plant_core.specs.StateFields.{byte_at, two_at, four_at};
ghost use Rattle.plant_core.specs.StateFields.{some_two_at, some_four_at};
ghost use Rattle.plant_core.specs.StateFields.{place_of_dest, place_of_group, place_of_entry};
ghost use Rattle.plant_core.specs.StateFields.{place_of_panel, place_of_notices, place_of_display};
ghost use Rattle.plant_core.specs.StateFault.{is_of_level, has_short_number};
ghost use Rattle.plant_core.specs.StateFault.{has_short_source_number};

use crate::wide::{is_short_dest, is_short_source};
use crate::write_fields::{NO_DEVICE, NO_NUMBER};
use plant_config::{DestId, Plant, SourceId, TieNo};
use salvo_groups::{GROUPS, MAX_ENTRIES};

/// How many bytes a group has.
const GROUP_BYTES: usize = 2 + 8 * MAX_ENTRIES;

/// The byte at a place.
#[tactic(auto, unfolding(crate::specs::StateFields::byte_at))]
pub(crate) fn byte_at(bytes: &[u8], place: usize) -> u8
    requires { place < length bytes.now }
    ensures { result ≡ byte_at bytes.now place }
{
    bytes[place]
}

/// The number of two bytes that begins at a place.
#[tactic(auto, using(crate::proofs::FieldLemmas::front_two), unfolding(crate::specs::StateFields::two_at))]
pub(crate) fn two_at(bytes: &[u8], place: usize) -> u16
    requires { place + 2 ≤ length bytes.now }
    ensures { result ≡ two_at bytes.now place }
{
    u16::from_le_bytes([bytes[place], bytes[place + 1]])
}

/// The number of four bytes that begins at a place.
#[tactic(auto, using(crate::proofs::FieldLemmas::front_four), unfolding(crate::specs::StateFields::four_at))]
pub(crate) fn four_at(bytes: &[u8], place: usize) -> u32
    requires { place + 4 ≤ length bytes.now }
    ensures { result ≡ four_at bytes.now place }
{
    u32::from_le_bytes([
        bytes[place],
        bytes[place + 1],
        bytes[place + 2],
        bytes[place + 3],
    ])
}

/// The device of two bytes, none where all of their bits are set.
#[tactic(auto, unfolding(crate::specs::StateFields::some_two_at))]
pub(crate) fn some_two_at(bytes: &[u8], place: usize) -> Option<u16>
    requires { place + 2 ≤ length bytes.now }
    ensures { result ≡ some_two_at bytes.now place }
{
    let number = two_at(bytes, place);
    if number == NO_DEVICE {
        None
    } else {
        Some(number)
    }
}

/// The source of four bytes, none where all of their bits are set.
#[tactic(auto, unfolding(crate::specs::StateFields::some_four_at))]
pub(crate) fn some_source_at(bytes: &[u8], place: usize) -> Option<SourceId>
    requires { place + 4 ≤ length bytes.now }
    ensures { result ≡ some_four_at bytes.now place }
{
    let number = four_at(bytes, place);
    if number == NO_NUMBER {
        None
    } else {
        Some(SourceId::of(number))
    }
}

/// The tie of four bytes, none where all of their bits are set.
#[tactic(auto, unfolding(crate::specs::StateFields::some_four_at))]
pub(crate) fn some_tie_at(bytes: &[u8], place: usize) -> Option<TieNo>
    requires { place + 4 ≤ length bytes.now }
    ensures { result ≡ some_four_at bytes.now place }
{
    let number = four_at(bytes, place);
    if number == NO_NUMBER {
        None
    } else {
        Some(TieNo::of(number))
    }
}

/// Where a destination begins.
pub(crate) fn place_of_dest(dest: DestId) -> usize
    ensures { result ≡ place_of_dest dest }
{
    16 + 10 * dest.get() as usize
}

/// Where a group begins, and where the panels begin, which stand behind the groups.
pub(crate) fn place_of_group(plant: &Plant, group: u8) -> usize
    requires { group ≤ GROUPS }
    ensures place { result ≡ place_of_group plant.now group }
    ensures plant { IsPlant plant.now }
{
    16 + 10 * plant.destination_count() as usize + usize::from(group) * GROUP_BYTES
}

/// Where a place of a group begins.
pub(crate) fn place_of_entry(plant: &Plant, group: u8, index: usize) -> usize
    requires group { group < GROUPS }
    requires index { index ≤ MAX_ENTRIES }
    ensures { result ≡ place_of_entry plant.now group index }
{
    place_of_group(plant, group) + 2 + 8 * index
}

/// Where a panel begins, and where the displays begin, which stand behind the panels.
#[tactic(auto, using(crate::proofs::StateTextLemmas::panels_fit))]
pub(crate) fn place_of_panel(plant: &Plant, panel: usize) -> usize
    requires { panel ≤ length plant.now.panels }
    ensures place { result ≡ place_of_panel plant.now panel }
    ensures plant { IsPlant plant.now }
{
    place_of_group(plant, GROUPS) + panel * (1 + plant.destination_count() as usize)
}

/// Where a panel's notices of a destination stand.
#[tactic(auto, using(crate::proofs::StateTextLemmas::panels_fit))]
pub(crate) fn place_of_notices(plant: &Plant, panel: usize, dest: DestId) -> usize
    requires { panel ≤ length plant.now.panels }
    ensures { result ≡ place_of_notices plant.now panel dest }
{
    place_of_panel(plant, panel) + 1 + dest.get() as usize
}

/// Where a display begins.
#[tactic(auto, using(crate::proofs::StateTextLemmas::panels_fit))]
pub(crate) fn place_of_display(plant: &Plant, display: usize) -> usize
    requires { display ≤ length plant.now.displays }
    ensures { result ≡ place_of_display plant.now display }
{
    place_of_panel(plant, plant.panels().len()) + 7 * display
}

/// Whether a source is of a destination's level.
#[tactic(auto, unfolding(crate::specs::StateFault::is_of_level))]
pub(crate) fn is_of_level(plant: &Plant, dest: DestId, source: SourceId) -> bool
    ensures { result ≡ is_of_level plant.now dest source }
{
    if plant.destination_count() <= dest.get() {
        return false;
    }
    let at = plant.point(dest);
    if plant.source_count() <= source.get() {
        return false;
    }
    let number = plant.source_number(source);
    plant.source(at.matrix, at.level, number) == Some(source)
}

/// Whether a destination is of the plant, and the commands that aren't extended can tell its number.
#[tactic(auto, unfolding(crate::specs::StateFault::has_short_number))]
pub(crate) fn has_short_number(plant: &Plant, dest: DestId) -> bool
    ensures { result ≡ has_short_number plant.now dest }
{
    if plant.destination_count() <= dest.get() {
        return false;
    }
    is_short_dest(plant.point(dest).dest)
}

/// Whether a source is of the plant, and those commands can tell its number.
#[tactic(auto, unfolding(crate::specs::StateFault::has_short_source_number))]
pub(crate) fn has_short_source_number(plant: &Plant, source: SourceId) -> bool
    ensures { result ≡ has_short_source_number plant.now source }
{
    if plant.source_count() <= source.get() {
        return false;
    }
    is_short_source(Some(plant.source_number(source)))
}
