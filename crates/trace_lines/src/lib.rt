//! The lines of a trace, one for each entry of a plant's history: `LineRoom` writes one, by the bytes that the entry's answers
//! send, and `read_line` and `trace_request` read one. What they promise rests on `specs/TraceLine.antt`, the text of an entry,
//! and `specs/Trace.antt`, what a line tells.
#![tactic(auto)]

mod laws;
mod reading;
mod writing;

pub use laws::{one_entry, written_is_read};
pub use reading::line::{Traced, read_line, trace_request};
pub use writing::line_room::LineRoom;
