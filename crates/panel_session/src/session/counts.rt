//! What a session counts.

/// How often these came since the session's start or its last reset.
#[derive(Clone, Copy, Debug, PartialEq, Eq)]
pub struct Counts {
    /// Good frames.
    pub goods: u64,
    /// Bad frames.
    pub bads: u64,
    /// Turns that are over.
    pub turns: u64,
}
