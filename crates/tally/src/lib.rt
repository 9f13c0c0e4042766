//! Which sources are on air, and which are on preview: those whose picture a live destination carries, for the air roots or for
//! the preview roots. A tally is kept up to date: a change costs what it turns on and off. All memory is taken at the opening.
#![tactic(auto)]

mod doubt;
mod laws;
mod losing;
mod marks;
mod relight;
mod roots;
mod settle;
mod tally;

pub use laws::{reads_are_few, settled_marks_say_what_is_live, what_is_left_is_live};
pub use roots::Roots;
pub use tally::Tally;
