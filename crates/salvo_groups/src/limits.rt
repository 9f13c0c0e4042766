//! The limits of salvo groups, by this project's profile.

/// How many salvo groups there are: their numbers are 0 to 127.
pub const GROUPS: u8 = 128;
/// The most entries of a group.
pub const MAX_ENTRIES: usize = 256;
