//! Why a store isn't opened, formatted or saved to.

use crate::store::Store;

/// Why a disk isn't opened as a plant's store. Each gives the disk back.
#[derive(Debug, Drop)]
pub enum OpenFault<D> {
    NoMemory(D),
    /// The disk has another size than the plant's store.
    WrongSize { disk: D, found: u64, wanted: u64 },
    /// A call of the disk failed.
    Failed(D),
    /// The slot that stands, 0 or 1, has no text of a state: its first field that breaks a rule stands at this place of it.
    Damaged { disk: D, slot: u8, place: u64 },
}

/// Why nothing is saved.
#[derive(Debug, Drop)]
pub enum SaveFault<D> {
    /// A call of the disk failed. The disk is opened again.
    Failed(D),
    /// The number of what is kept is 2^63 or more. Nothing was written.
    Full(Store<D>),
}
