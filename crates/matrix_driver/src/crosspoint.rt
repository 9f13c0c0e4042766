//! A crosspoint of a level.

ghost use Rattle.std.specs.Prelude.{◌≡◌};
ghost use Rattle.matrix_driver.specs.Messages.{is_short};

use swp08_messages::PARKED;

/// How many destinations and sources the short commands number.
const SHORT_DESTINATIONS: u16 = 1024;

/// A destination of a level, and the source at it, `None` where it is parked.
#[derive(Clone, Copy, Debug, PartialEq, Eq)]
pub(crate) struct Crosspoint {
    pub(crate) dest: u16,
    pub(crate) source: Option<u16>,
}

impl Crosspoint {
    /// Whether both numbers have room in the short commands.
    pub(crate) fn is_short(&self) -> bool
        ensures { result ≡ is_short self.now }
    {
        self.dest < SHORT_DESTINATIONS && self.source.is_none_or(|source| source < PARKED)
    }
}
