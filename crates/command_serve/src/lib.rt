//! The command `serve` of `plantctl`: it serves a plant over a net, with its traces in files where there is a prefix. What it
//! promises stands in `specs/Serve.antt`, and what it shares with other commands in `command_rows`.
#![tactic(auto)]

mod laws;
mod row;
mod told;
mod trace_files;

pub use laws::{limits_met, net_failed, served, served_whole, services_have_causes};
pub use row::serve;
