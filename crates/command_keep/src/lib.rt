//! The command `keep` of `plantctl`: it goes on from the state that a plant's store stands for with the lines of a script, and saves
//! the state behind each. What it promises stands in `specs/Keep.antt`, and what it shares with other commands in `command_rows`.
#![tactic(auto)]

mod laws;
mod outcome;
mod row;

pub use laws::keeps;
pub use row::keep;
