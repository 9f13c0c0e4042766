//! The store of a plant: its state on a disk, so that a controller that is stopped at any moment goes on from the last state
//! that was saved, or from the one that was being saved. A store that was formatted and never saved to stands for the start.
#![tactic(auto)]

mod entry;
mod fault;
mod format;
mod laws;
mod open;
mod saved;
mod size;
mod store;

pub use fault::{OpenFault, SaveFault};
pub use format::format_store;
pub use laws::stores_stand_for_one_state;
pub use open::open_saved;
pub use size::store_size;
pub use store::Store;
