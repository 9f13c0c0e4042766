//! Lists of members under heads, linked by numbers in vectors, and a count of the reads of them. All memory is taken when
//! the lists are made. Each call behind that reads or writes a few places, however long the lists are.
#![tactic(auto)]

mod laws;
mod links;
mod steps;
mod taps;

pub use laws::{links_insert_first, unlinks_remove, walks_answer_all};
pub use steps::Steps;
pub use taps::Taps;
