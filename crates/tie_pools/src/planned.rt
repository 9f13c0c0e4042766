//! What planning a list of changes answers.

use plant_config::PoolId;

/// The ties are enough for a list of changes. Only a plan makes one, and making the changes spends it.
#[derive(Debug, Drop)]
pub struct Planned {
    _planned: (),
}

impl Planned {
    // The ties are enough.
    pub(crate) fn new() -> Planned {
        Planned { _planned: () }
    }
}

/// The ties aren't enough for a panel's list of changes.
#[derive(Clone, Copy, Debug, PartialEq, Eq)]
pub struct Exhausted {
    /// The lowest pool that the list exceeds.
    pub pool: PoolId,
    /// How many different origins its destinations would carry.
    pub wanted: u32,
    /// How many may for this panel, at most the pool's ties.
    pub limit: u32,
}
