//! What stands at a destination.

use plant_config::{SourceId, TieNo};

/// What a destination carries.
#[derive(Clone, Copy, Debug, PartialEq, Eq)]
pub struct Spot {
    /// The source.
    pub source: SourceId,
    /// The tie that brings it there, `None` for a source of the destination's own level.
    pub tie: Option<TieNo>,
}
