//! The command `drill` of `plantctl`: panels made from a number alone share a plant, and its history is audited. What it
//! promises stands in `specs/Drill.antt`, and what it shares with other commands in `command_rows`.
#![tactic(auto)]

mod asked;
mod laws;
mod row;
mod text;

pub use laws::drills;
pub use row::drill;
