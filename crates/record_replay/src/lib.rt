//! Replays: scripts of what panels sent, replayed on one plant by one thread. A script's lines are all read before
//! the first is worked, so a script with a bad line writes nothing. What is written is the script's one replay
//! text, and what its displays are told may be sent to a port.
#![tactic(auto)]

mod check;
mod digits;
mod first;
mod in_memory;
mod kept;
mod laws;
mod line;
mod monitor;
mod no_port;
mod number;
mod output;
mod pairs;
mod replay;
mod replayer;
mod script;
mod show;
mod streamed;
mod take;
mod unwritten;

pub use kept::{KeptFault, replay_kept};
pub use laws::{lines_answer_items, no_tie_carries_two_sources, one_history, one_item, one_replay};
pub use monitor::{MonitorFault, monitor_stream};
pub use replay::{ReplayFault, replay_script};
pub use streamed::{StreamedFault, replay_script_to};
