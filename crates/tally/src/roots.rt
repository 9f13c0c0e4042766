//! The destinations at which a plant's tally begins.

ghost use Rattle.std.specs.Prelude.{◌≡◌, ◌<◌, All, IfOk};
ghost use Rattle.number_tables.specs.Numbers.{number_limit};
ghost use Rattle.tally.specs.Tally.{roots_of};
ghost use Rattle.tally.specs.Lost.{AreRoots};

use number_tables::NumberSet;
use plant_config::{DestId, Plant};
use std::alloc::{AllocError, Global};

/// For which roots a tally is asked.
#[derive(Clone, Copy, Debug, PartialEq, Eq)]
pub enum Roots {
    /// The destinations that are on air.
    Air,
    /// The destinations that are on preview.
    Preview,
}

impl Roots {
    // The destinations of a plant that are such roots.
    pub(crate) fn of(self, plant: &Plant) -> &[DestId]
        ensures { result.now ≡ roots_of plant.now self }
    {
        match self {
            Roots::Air => plant.air(),
            Roots::Preview => plant.preview(),
        }
    }
}

// The set of some destinations.
pub(crate) fn set_of(alloc: Global, dests: &[DestId]) -> Result<NumberSet, AllocError>
    requires { All (λ dest. dest < number_limit) dests.now }
    ensures { IfOk result (AreRoots dests.now) }
{
    let mut set = NumberSet::new(alloc)?;
    for dest in dests {
        set.insert(dest.get());
    }
    Ok(set)
}
