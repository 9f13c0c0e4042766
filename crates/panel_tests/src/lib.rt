//! The tests of the crates through which panels meet the plant: sessions, replays and audits.
//! Each crate has its example in `examples`, and what no clause of it says in the module that is named for it.
//! They use what the crates give to all, and stand above them, so that each crate is proved once.
#![tactic(auto)]

#[cfg(test)]
mod examples;
#[cfg(test)]
mod holding_gate;
#[cfg(test)]
mod in_memory;
#[cfg(test)]
mod of_display_packets;
#[cfg(test)]
mod of_drill;
#[cfg(test)]
mod of_panel_server;
#[cfg(test)]
mod of_panel_session;
#[cfg(test)]
mod of_record_replay;
#[cfg(test)]
mod of_trace_audit;
#[cfg(test)]
mod of_trace_lines;
#[cfg(test)]
mod studio;
