//! The command `replay` of `plantctl`: it replays a script on a plant. What it promises stands in `specs/Replay.antt`, and
//! what it shares with other commands in `command_rows`.
#![tactic(auto)]

mod laws;
mod row;

pub use laws::replays;
pub use row::replay;
