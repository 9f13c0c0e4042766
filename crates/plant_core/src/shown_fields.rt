//! Whether a field of a panel or of a display in a state's text keeps the rules.

ghost use Rattle.std.specs.Prelude.{◌≡◌, ◌+◌, ◌<◌, nat_le, length};
ghost use Rattle.plant_config.specs.Plant.{destinations_of};
ghost use Rattle.plant_core.specs.StateText.{state_size};
ghost use Rattle.plant_core.specs.StateFields.{byte_at, place_of_notices};
ghost use Rattle.plant_core.specs.StateFault.{most_notices, was_shown, shown_source_in};
ghost use Rattle.plant_core.specs.StateFault.{watch_at, shown_source_holds, most_lamp};
ghost use Rattle.plant_core.specs.ReadParts.{shown_in};

use crate::read_fields::{
    byte_at, four_at, has_short_number, is_of_level, place_of_display, place_of_notices,
    place_of_panel, some_source_at,
};
use change_boards::Value;
use plant_config::{DestId, Plant, SourceId};

/// The byte of a panel's notices of a destination is at most what it may be.
pub(crate) fn notices_hold(plant: &Plant, bytes: &[u8], panel: usize, dest: DestId) -> bool
    requires size { length bytes.now ≡ state_size plant.now }
    requires panel { panel < length plant.now.panels }
    requires dest { dest < destinations_of plant.now }
    ensures { result ≡ nat_le (byte_at bytes.now (place_of_notices plant.now panel dest))
        (most_notices plant.now bytes.now panel dest) }
{
    byte_at(bytes, place_of_notices(plant, panel, dest)) <= most_notices(plant, bytes, panel, dest)
}

// The most that it may be.
#[tactic(auto, unfolding(crate::specs::StateFault::most_notices))]
fn most_notices(plant: &Plant, bytes: &[u8], panel: usize, dest: DestId) -> u8
    requires size { length bytes.now ≡ state_size plant.now }
    requires panel { panel < length plant.now.panels }
    ensures { result ≡ most_notices plant.now bytes.now panel dest }
{
    if byte_at(bytes, place_of_panel(plant, panel)) == 1 {
        return 0;
    }
    if has_short_number(plant, dest) { 3 } else { 1 }
}

/// Whether a display was shown anything: 0 or 1.
#[tactic(auto, unfolding(crate::specs::StateFault::was_shown))]
pub(crate) fn was_shown(plant: &Plant, bytes: &[u8], display: usize) -> u8
    requires size { length bytes.now ≡ state_size plant.now }
    requires display { display < length plant.now.displays }
    ensures { result ≡ was_shown plant.now bytes.now display }
{
    byte_at(bytes, place_of_display(plant, display))
}

/// A display was shown nothing, and then all of its fields are 0, or a source of its destination's level, or none.
#[tactic(auto, unfolding(crate::specs::StateFault::shown_source_holds))]
pub(crate) fn shown_source_holds(plant: &Plant, bytes: &[u8], display: usize) -> bool
    requires size { length bytes.now ≡ state_size plant.now }
    requires display { display < length plant.now.displays }
    ensures { result ≡ shown_source_holds plant.now bytes.now display }
{
    if was_shown(plant, bytes, display) == 0 {
        return four_at(bytes, place_of_display(plant, display) + 1) == 0;
    }
    match source_in(plant, bytes, display) {
        Some(source) => is_of_level(plant, watch_at(plant, display), source),
        None => true,
    }
}

/// One of the bytes of air and preview is at most what it may be.
pub(crate) fn lamp_holds(plant: &Plant, bytes: &[u8], display: usize, place: usize) -> bool
    requires size { length bytes.now ≡ state_size plant.now }
    requires display { display < length plant.now.displays }
    requires place { place < length bytes.now }
    ensures { result ≡ nat_le (byte_at bytes.now place) (most_lamp plant.now bytes.now display) }
{
    byte_at(bytes, place) <= most_lamp(plant, bytes, display)
}

// The most that they may be.
#[tactic(auto, unfolding(crate::specs::StateFault::most_lamp))]
fn most_lamp(plant: &Plant, bytes: &[u8], display: usize) -> u8
    requires size { length bytes.now ≡ state_size plant.now }
    requires display { display < length plant.now.displays }
    ensures { result ≡ most_lamp plant.now bytes.now display }
{
    if was_shown(plant, bytes, display) == 0 {
        return 0;
    }
    if source_in(plant, bytes, display).is_none() {
        0
    } else {
        1
    }
}

/// What a display was last shown.
#[tactic(auto, unfolding(crate::specs::ReadParts::shown_in))]
pub(crate) fn value_in(plant: &Plant, bytes: &[u8], display: usize) -> Option<Value>
    requires size { length bytes.now ≡ state_size plant.now }
    requires display { display < length plant.now.displays }
    ensures { result ≡ shown_in plant.now bytes.now display }
{
    if was_shown(plant, bytes, display) == 0 {
        return None;
    }
    let place = place_of_display(plant, display);
    Some(Value {
        source: source_in(plant, bytes, display),
        air: byte_at(bytes, place + 5) == 1,
        preview: byte_at(bytes, place + 6) == 1,
    })
}

// The source that a display was last shown.
#[tactic(auto, unfolding(crate::specs::StateFault::shown_source_in))]
fn source_in(plant: &Plant, bytes: &[u8], display: usize) -> Option<SourceId>
    requires size { length bytes.now ≡ state_size plant.now }
    requires display { display < length plant.now.displays }
    ensures { result ≡ shown_source_in plant.now bytes.now display }
{
    some_source_at(bytes, place_of_display(plant, display) + 1)
}

// The destination that a display watches.
#[tactic(auto, unfolding(crate::specs::StateFault::watch_at))]
fn watch_at(plant: &Plant, display: usize) -> DestId
    requires { display < length plant.now.displays }
    ensures { result ≡ watch_at plant.now display }
{
    plant.displays()[display].watch
}
