//! A machine that many threads share, and the one history of what they asked of it and were answered. A machine is one
//! function of its state and a request, which its users give; the history is a list that exists in the proofs alone.
//! Nothing here knows what the machine is for.
#![tactic(auto)]

mod call;
mod close;
mod desk;
mod entry;
mod fault;
mod laws;
mod lock;
mod machine;
mod make;
mod meet;
mod out_box;
mod plays;
mod rule;
mod seat;
mod steps;
mod turns;
mod view;
mod waiting;

pub use entry::Entry;
pub use fault::{CallFault, TryFault};
pub use laws::{
    fronts_are_legal, requests_fix_answers, runs_compose, seats_share_history, steps_stay_legal,
};
pub use lock::HistoryLock;
pub use machine::Machine;
pub use out_box::OutBox;
pub use seat::{Closed, Note, Past, Seat};
