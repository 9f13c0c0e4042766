//! What each destination carries: a source, and the tie that brings it there. Under each local source stand the destinations
//! that carry its picture, so that these are found without a look at the others. The definition `applied` makes a list of
//! changes as one, and laws say what it does. All memory is taken at the start.
#![tactic(auto)]

mod crosspoints;
mod laws;
mod spot;
mod tapped;

pub use crosspoints::Crosspoints;
pub use laws::{
    a_pool_is_exhausted_where_ties_are_not_enough, changes_are_made, idle_changes_do_nothing,
    other_destinations_stay, ties_are_freed_last, ties_stay_valid,
};
pub use spot::Spot;
