//! A part of a list.

/// Where in a list some of its elements stand, one behind the other.
#[derive(Clone, Copy, Debug, PartialEq, Eq)]
pub(crate) struct Span {
    /// The place of the first.
    pub(crate) first: u32,
    /// How many there are.
    pub(crate) count: u32,
}
