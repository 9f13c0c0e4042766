//! What a notice is of.

/// What of a destination changed.
#[derive(Clone, Copy, Debug, PartialEq, Eq)]
pub enum Sort {
    /// The source that it carries.
    Source,
    /// The device that protects it.
    Protect,
}
