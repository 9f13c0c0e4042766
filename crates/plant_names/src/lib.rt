//! The names of a plant's sources and destinations: what a name leads to, and the pages of names that panels are sent.
//! All is made of the plant at the opening, with an index of the names of each level; no later call takes memory.
#![tactic(auto)]

mod laws;
mod level;
mod made;
mod names;
mod page;
mod paged;

pub use laws::{dests_have_their_names, pages_have_each_name_once, sources_have_their_names};
pub use names::Names;
pub use paged::Paged;
