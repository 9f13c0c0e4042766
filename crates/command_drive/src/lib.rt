//! The command `drive` of `plantctl`: a driver of the bench level drives the bench plant over a line that loses messages.
//! What it promises stands in `specs/DriveRow.antt`, the drive itself in `specs/Drive.antt`, and what it shares with other
//! commands in `command_rows`.
#![tactic(auto)]

mod asked;
mod bench;
mod bench_frame;
mod laws;
mod row;
mod text;
mod way;

pub use laws::{drives, drives_are_runs, ends_are_one};
pub use row::drive;
