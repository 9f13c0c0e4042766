//! What a standby answers to a request that comes.

/// What a standby answers to a request that comes at a position.
#[derive(Clone, Copy, Debug, PartialEq, Eq)]
pub enum Took {
    /// It was applied before. Nothing changed.
    Old,
    /// Its position isn't below this number, that of the applied requests and the window together. Nothing changed.
    Beyond(u64),
    /// Another request is kept for its position. Nothing changed.
    Differs,
    /// It is kept until those before it have come.
    Kept,
    /// It was stepped, and those that were kept in a row behind it. So many are applied now.
    Applied(u64),
}
