//! Tables by number: finite maps from numbers to values, and sets of numbers below 65,536, or of small ones below 1,024. A map
//! reads or writes one place a call, and a set has bits for the words that have members, so that its lowest is found at once.
//! All memory is taken when a table is made.
#![tactic(auto)]

mod laws;
mod number_map;
mod number_set;
mod small_set;
mod words;

pub use laws::{a_value_set_again_changes_nothing, sets_change_one_number};
pub use number_map::NumberMap;
pub use number_set::{MAX_NUMBERS, NumberSet};
pub use small_set::SmallSet;
