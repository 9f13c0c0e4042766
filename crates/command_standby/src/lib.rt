//! The command `standby` of `plantctl`: what traces leave of a standby, to which their lines come in the order in which they
//! stand. What it promises stands in `specs/Standby.antt`, and what it shares with other commands in `command_rows`.
#![tactic(auto)]

mod follow;
mod laws;
mod row;
mod text;

pub use laws::standbys;
pub use row::standby;
