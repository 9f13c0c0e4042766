//! What the displays were last shown.

ghost use Rattle.std.specs.Prelude.{◌≡◌, ◌<◌, All, length, replicate, IfOk};
ghost use Rattle.change_boards.specs.Shown.{never_shown, last, differs, with_shown};
ghost use Rattle.change_boards.specs.Shown.{with_forgotten};

use crate::value::Value;
use plant_config::{DisplayId, Plant};
use std::alloc::{AllocError, Global};
use std::marker::Model;

/// The value that each display of a plant was last shown, if any.
#[derive(Debug, Drop)]
pub struct Shown {
    values: Vec<Option<Value>>,
}

impl Model for Shown {
    ghost use Rattle.change_boards.specs.Shown as shown;

    ghost Value = { shown.Shown };

    ghost coded = { shown.shown_code };

    ghost view = { λ shown. shown.values.items };
}

impl Shown {
    /// No display of this plant was shown a value.
    pub fn new(alloc: Global, plant: &Plant) -> Result<Shown, AllocError>
        ensures { IfOk result (λ shown. shown ≡ never_shown (length plant.now.displays)) }
    {
        let values = none_of_each(alloc, plant.displays().len())?;
        Ok(Shown { values })
    }

    /// The value that a display was last shown, `None` where it was shown none.
    pub fn last(&self, display: DisplayId) -> Option<Value>
        requires { display < length self.now }
        ensures { result ≡ last self.now display }
    {
        let index = display.get() as usize;
        self.values[index]
    }

    /// Whether a display is to be shown this value: it was last shown another one, or none.
    pub fn differs(&self, display: DisplayId, value: Value) -> bool
        requires { display < length self.now }
        ensures { result ≡ differs self.now display value }
    {
        self.last(display) != Some(value)
    }

    /// A display is shown a value. No other display changes.
    pub fn show(&mut self, display: DisplayId, value: Value)
        requires { display < length self.old }
        ensures { self.new ≡ with_shown self.old display value }
    {
        self.values[display.get() as usize] = Some(value);
    }

    /// These displays become such as were shown no value. No other display changes.
    pub fn forget(&mut self, displays: &[DisplayId])
        requires { All (λ display. display < length self.old) displays.now }
        ensures { self.new ≡ with_forgotten self.old displays.now }
    {
        for display in displays {
            self.values[display.get() as usize] = None;
        }
    }
}

// So many times no value.
// kit: `vec![in alloc; None; count]` of values beside a plant meets a fault of the prover; so the function is generic.
fn none_of_each<T: Copy>(alloc: Global, count: usize) -> Result<Vec<Option<T>>, AllocError>
    ensures { IfOk result (λ values. values.items ≡ replicate count None) }
{
    vec![in alloc; None; count]
}
