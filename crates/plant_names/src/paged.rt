//! How a page of names ends.

/// How a page of names ends.
#[derive(Clone, Copy, Debug, PartialEq, Eq)]
pub enum Paged {
    /// There is no page: the plant has no such level, or the level no name of this number.
    Nothing,
    /// The page has been written, and no more names follow.
    Last,
    /// The page has been written, and the next one begins at this number.
    More(u16),
}
