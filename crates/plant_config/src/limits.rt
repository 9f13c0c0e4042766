//! The limits of a plant that the code works with, by this project's profile.

/// Matrices are 0 to 15.
pub const MATRICES: u8 = 16;
/// The levels of a matrix are 0 to 15.
pub const LEVELS_OF_A_MATRIX: u8 = 16;
/// The most sources of a plant.
pub const MAX_SOURCES: u32 = 65_536;
/// The most destinations of a plant.
pub const MAX_DESTINATIONS: u32 = 65_536;
