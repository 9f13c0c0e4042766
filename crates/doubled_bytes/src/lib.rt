//! Streams in which one byte, DLE, stands before each control and is sent twice in what a control starts.
//! `specs/Doubled.antt` has the spelling, `specs/Reading.antt` what a text says if it is read by its starts, and
//! `specs/Feeding.antt` what a reader does with a piece of it. Which byte DLE is, and what the starts are, each protocol says.
#![tactic(auto)]

mod doubling;
mod state;

pub use doubling::push_doubled;
pub use state::State;
