//! The salvo groups of a plant, common to all panels: lists of changes that are made later as one. A group has at most
//! one entry of each destination, in the order in which the destinations were first stored. All room is taken when the
//! groups are made, and no other call takes memory.
#![tactic(auto)]

mod entries;
mod groups;
mod laws;
mod limits;
mod store;

pub use groups::Groups;
pub use laws::{
    clears_are_of_one_group, groups_have_only_what_was_stored, groups_stay_groups,
    limits_are_those_of_the_profile, stores_are_read, stores_collect,
};
pub use limits::{GROUPS, MAX_ENTRIES};
pub use store::Store;
