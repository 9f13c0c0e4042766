//! How a turn was cut short.

/// Why a turn ended before all of its piece was worked and its polls were made.
#[derive(Clone, Copy, Debug, PartialEq, Eq)]
pub enum Cut {
    /// What answers refused a request.
    Refused,
    /// A request was answered, and its line wasn't traced as a whole.
    Untraced,
    /// Bytes weren't sent as a whole.
    Unsent,
}
