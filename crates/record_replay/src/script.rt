//! The bytes that a line of a script is cut at.

// Ends a line.
pub(crate) const LF: u8 = b'\n';

// Stands before each name of a take.
pub(crate) const TAB: u8 = b'\t';

// Begins a line that is skipped.
pub(crate) const HASH: u8 = b'#';
