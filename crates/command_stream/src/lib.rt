//! The command `stream` of `plantctl`: it replays a script on a plant, with what the displays are told as a stream in a file.
//! What it promises stands in `specs/Stream.antt`, and what it shares with other commands in `command_rows`.
#![tactic(auto)]

mod file_port;
mod laws;
mod row;

pub use laws::streams;
pub use row::stream;
