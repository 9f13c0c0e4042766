//! A value as clauses see it, carried beside data. It has no bytes, and may go to any thread and be shared by threads.
//! Nothing that runs depends on it.
#![tactic(auto)]

mod seen;

pub use seen::Seen;
