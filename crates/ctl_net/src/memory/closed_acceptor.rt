//! An acceptor in memory that its net was given back.

use crate::MemAcceptor;

/// An acceptor in memory that was given back, with the number of its panel.
#[derive(Debug, Drop)]
pub struct ClosedAcceptor {
    pub panel: u32,
    pub acceptor: MemAcceptor,
}
