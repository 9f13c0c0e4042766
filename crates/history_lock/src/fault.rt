//! Why a call has no answer.

/// Why a call has no answer.
#[derive(Clone, Copy, Debug, PartialEq, Eq)]
pub enum CallFault {
    /// The history has 2^62 entries, or will once those that wait were answered.
    Full,
}

/// Why a try has no answer.
#[derive(Clone, Copy, Debug, PartialEq, Eq)]
pub enum TryFault {
    /// The history has 2^62 entries.
    Full,
    /// Another caller has the machine, or waits for it: `serving` was read, and then `ticket` was found.
    Busy { serving: u64, ticket: u64 },
}
