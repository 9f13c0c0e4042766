//! One short use of each crate, which its PROMISES.md shows word for word.

mod of_display_packets;
pub(crate) mod of_drill;
pub(crate) mod of_panel_server;
pub(crate) mod of_panel_session;
pub(crate) mod of_record_replay;
pub(crate) mod of_trace_audit;
mod of_trace_lines;
