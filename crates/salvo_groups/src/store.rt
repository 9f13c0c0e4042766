//! What a store answers.

/// What became of a change that was to be stored.
#[derive(Clone, Copy, Debug, PartialEq, Eq)]
pub enum Store {
    /// It is the entry of its destination.
    Stored,
    /// It isn't: its destination has no entry, and the group has as many others as it may have.
    GroupFull,
}
