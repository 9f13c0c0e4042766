//! The numbers in a line.

ghost use Rattle.std.specs.Prelude.{MatchOption};
ghost use Rattle.record_replay.specs.LineInside.{SpellsNoNumber, SpellsNoPanel, SpellsPanel};
ghost use Rattle.record_replay.specs.LineInside.{SpellsNoScreen, SpellsScreen};
ghost use Rattle.plant_config.specs.IsPlant.{IsPlant};
ghost use Rattle.record_replay.specs.Script.{NumberSpells};

use line_text::read_decimal;
use plant_config::{PanelNo, Plant};

// The most digits of a number.
const MAX_DIGITS: usize = 5;

// The panel of the plant whose number the digits spell, `None` where they spell none.
pub(crate) fn read_panel(plant: &Plant, digits: &[u8]) -> Option<PanelNo>
    ensures panel { MatchOption result
        (SpellsNoPanel plant.now digits.now)
        (λ panel. SpellsPanel plant.now digits.now panel) }
    ensures plant { IsPlant plant.now }
{
    let panels = plant.panels().len();
    let number = read_number(digits)?;
    if (number as usize) < panels {
        Some(PanelNo::of(number))
    } else {
        None
    }
}

// The screen whose number the digits spell, `None` where they spell none that a display of the plant is on.
pub(crate) fn read_screen(plant: &Plant, digits: &[u8]) -> Option<u16>
    ensures { MatchOption result
        (SpellsNoScreen plant.now digits.now)
        (λ screen. SpellsScreen plant.now digits.now screen) }
{
    let number = read_number(digits)?;
    plant.screen(u64::from(number))
}

// The number that digits spell, `None` where a text isn't one to five digits.
pub(crate) fn read_number(digits: &[u8]) -> Option<u32>
    ensures { MatchOption result
        (SpellsNoNumber digits.now)
        (λ number. NumberSpells digits.now number) }
{
    if digits.len() > MAX_DIGITS {
        return None;
    }
    Some(read_decimal(digits)? as u32)
}
