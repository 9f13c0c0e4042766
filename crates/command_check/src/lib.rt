//! The command `check` of `plantctl`: it says what a plant has, in lines. What it promises stands in `specs/Check.antt`, and
//! what it shares with other commands in `command_rows`.
#![tactic(auto)]

mod laws;
mod row;
mod text;

pub use laws::checks;
pub use row::check;
