//! What a display shows.

use plant_config::SourceId;

/// What a display shows of the destination that it watches.
#[derive(Clone, Copy, Debug, PartialEq, Eq)]
pub struct Value {
    /// The source that the destination carries, `None` where it is parked.
    pub source: Option<SourceId>,
    /// Whether that source is on air.
    pub air: bool,
    /// Whether it is on preview.
    pub preview: bool,
}
