//! What a link in memory gives, read by read.

use ctl_io::Bytes;

/// What comes over a link in memory.
#[derive(Debug, Drop)]
pub enum LinkEvent {
    /// These bytes come.
    Piece(Bytes),
    /// Nothing comes for a while.
    Idle,
}
