//! Devices and their buses. A bus is a destination, and is on by itself or by the destination that switches it. All tables are
//! made at the opening, and a graph is the only door to them: no call looks at a bus or a device that it isn't asked for.
#![tactic(auto)]

mod graph;
mod laws;
mod mixers;
mod span;

pub use graph::Graph;
pub use laws::{
    a_cut_switch_cuts_its_bus, cut_sources_are_dark, live_is_least, sources_at_roots_are_seen,
};
pub use mixers::Mixers;
