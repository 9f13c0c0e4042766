//! The drill: a large workload that is made from a number alone, so that each run of it is the same.
//! Each panel has its draws, its messages and their bytes, good frames and bad ones.
#![tactic(auto)]

mod draws;
mod frames;
mod laws;
mod message;
mod outcome;
mod panel_bytes;
mod panel_link;
mod pieces;
mod run;
mod tape;
mod worker;

pub use laws::{frames_are_counted, messages_ask_the_plant, streams_are_read};
pub use panel_bytes::stream;
pub use pieces::in_pieces;
pub use run::{Drilled, run_drill};
