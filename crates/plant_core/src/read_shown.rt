//! What the displays were last shown is read from a state's text.

ghost use Rattle.std.specs.Prelude.{◌≡◌, length, None, IfOk};
ghost use Rattle.plant_config.specs.IsPlant.{IsPlant};
ghost use Rattle.plant_core.specs.StateText.{state_size};
ghost use Rattle.plant_core.specs.StateFault.{first_fault};
ghost use Rattle.plant_core.specs.ReadInside.{AreShownIn};

use crate::shown_fields::value_in;
use change_boards::Shown;
use plant_config::{DisplayId, Plant};
use std::alloc::{AllocError, Global};

/// What each display was last shown, from a text without a fault.
pub(crate) fn read_shown(alloc: Global, plant: &Plant, bytes: &[u8]) -> Result<Shown, AllocError>
    requires plant { IsPlant plant.now }
    requires size { length bytes.now ≡ state_size plant.now }
    requires whole { first_fault plant.now bytes.now ≡ None }
    ensures { IfOk result (AreShownIn plant.now bytes.now) }
{
    let mut shown = Shown::new(alloc, plant)?;
    for number in 0..plant.displays().len() {
        if let Some(value) = value_in(plant, bytes, number) {
            shown.show(DisplayId::of(number as u32), value);
        }
    }
    Ok(shown)
}
