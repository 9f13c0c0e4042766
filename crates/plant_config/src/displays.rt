//! The displays of a plant, and the screens that they are on.

ghost use Rattle.std.specs.Prelude.{◌≡◌, All, IfOk};
ghost use Rattle.plant_config.specs.Screens.{is_screen_among, screens_among};
ghost use Rattle.plant_config.specs.DisplaysInside.{IsOnScreen};

use crate::records::Display;
use std::alloc::{AllocError, Global};
use std::marker::Model;

/// The displays of a plant. A contract sees them as their list.
#[derive(Debug, Drop)]
pub(crate) struct Displays {
    displays: Vec<Display>,
    // The screens that they are on, so that nothing that asks for a screen looks through all displays.
    screens: Vec<u16>,
}

impl Model for Displays {
    ghost use Rattle.std.specs.Prelude.{List};
    ghost use Rattle.plant_config.specs.declared.records.Display.{Display};

    ghost Value = { List Display };

    ghost use Rattle.plant_config.specs.DisplaysInside.{AreNoted};

    ghost view = { λ displays. displays.displays.items };

    ghost invariant = { λ displays. AreNoted displays.displays.items displays.screens.items };
}

impl Displays {
    /// These displays.
    pub(crate) fn of(alloc: Global, displays: Vec<Display>) -> Result<Displays, AllocError>
        requires { All IsOnScreen displays.items }
        ensures { IfOk result (λ made. made ≡ displays.items) }
    {
        let screens = noted(alloc, displays.as_slice())?;
        Ok(Displays { displays, screens })
    }

    /// Equal displays.
    pub(crate) fn copy(&self, alloc: Global) -> Result<Displays, AllocError>
        ensures { IfOk result (λ displays. displays ≡ self.now) }
    {
        Ok(Displays {
            displays: self.displays.as_slice().to_vec(alloc)?,
            screens: self.screens.as_slice().to_vec(alloc)?,
        })
    }

    /// The displays, in the order of their numbers.
    pub(crate) fn as_slice(&self) -> &[Display]
        ensures { result.now ≡ self.now }
    {
        self.displays.as_slice()
    }

    /// The screens, ascending, each once.
    pub(crate) fn screens(&self) -> &[u16]
        ensures { result.now ≡ screens_among self.now }
    {
        self.screens.as_slice()
    }

    /// Whether some display is on a screen.
    pub(crate) fn has_screen(&self, screen: u16) -> bool
        ensures { result ≡ is_screen_among self.now screen }
    {
        self.screens.as_slice().binary_search(&screen).is_ok()
    }
}

// The screens that displays are on.
fn noted(alloc: Global, displays: &[Display]) -> Result<Vec<u16>, AllocError>
    requires { All IsOnScreen displays.now }
    ensures { IfOk result (λ made. made.items ≡ screens_among displays.now) }
{
    let mut screens: Vec<u16> = displays
        .iter()
        .map(|display| display.screen)
        .collect(alloc)?;
    screens.sort_unstable();
    screens.dedup();
    Ok(screens)
}
