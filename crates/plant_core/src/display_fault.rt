//! The first field of a display in a state's text that breaks a rule.

ghost use Rattle.std.specs.Prelude.{◌≡◌, ◌<◌, length};
ghost use Rattle.plant_core.specs.StateText.{state_size};
ghost use Rattle.plant_core.specs.StateFault.{first_broken, fields_of_each, display_fields};

use crate::read_fields::place_of_display;
use crate::shown_fields::{lamp_holds, shown_source_holds, was_shown};
use plant_config::Plant;

/// Of all displays.
pub(crate) fn displays_fault(plant: &Plant, bytes: &[u8]) -> Option<usize>
    requires { length bytes.now ≡ state_size plant.now }
    ensures { result ≡ first_broken (fields_of_each (length plant.now.displays)
        (display_fields plant.now bytes.now)) }
{
    for display in 0..plant.displays().len() {
        if let Some(place) = display_fault(plant, bytes, display) {
            return Some(place);
        }
    }
    None
}

// Of a display.
#[tactic(auto, unfolding(crate::specs::StateFault::display_fields))]
fn display_fault(plant: &Plant, bytes: &[u8], display: usize) -> Option<usize>
    requires size { length bytes.now ≡ state_size plant.now }
    requires display { display < length plant.now.displays }
    ensures { result ≡ first_broken (display_fields plant.now bytes.now display) }
{
    let place = place_of_display(plant, display);
    if was_shown(plant, bytes, display) > 1 {
        return Some(place);
    }
    if !shown_source_holds(plant, bytes, display) {
        return Some(place + 1);
    }
    if !lamp_holds(plant, bytes, display, place + 5) {
        return Some(place + 5);
    }
    if !lamp_holds(plant, bytes, display, place + 6) {
        return Some(place + 6);
    }
    None
}
