//! The command `format` of `plantctl`: it makes a plant's store that stands for the start. What it promises stands in
//! `specs/Format.antt`, and what it shares with other commands in `command_rows`.
#![tactic(auto)]

mod laws;
mod row;

pub use laws::formats;
pub use row::format;
