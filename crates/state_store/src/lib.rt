//! A store of texts of one length on a disk, in two slots, of which one stands. A save writes the other one and then opens
//! its gate, so that a crash at any moment leaves what was kept before or what is saved, whole.
#![tactic(auto)]

mod entry;
mod formatting;
mod heads;
mod reading;
mod slot;
mod slots;
mod steps;
mod synced;

pub use entry::number_bytes;
pub use formatting::format;
pub use slot::Slot;
pub use slots::Slots;
