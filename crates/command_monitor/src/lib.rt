//! The command `monitor` of `plantctl`: it tells what a recorded stream of display packets says, in lines. What it promises
//! stands in `specs/Monitor.antt`, and what it shares with other commands in `command_rows`.
#![tactic(auto)]

mod laws;
mod row;

pub use laws::tells;
pub use row::monitor;
