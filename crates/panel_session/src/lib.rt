//! The session of one panel: from the bytes that the panel sends to the bytes that it is sent, by requests to the plant.
//! `Session::work_turn` works a turn, over any answerer and any outlet. What is promised rests on `specs/Turns.antt`, the
//! requests that a session makes, and `specs/Text.antt`, the bytes that it sends.
#![tactic(auto)]

mod engine;
mod laws;
mod sending;
mod serve;
mod session;
mod traces;

pub use engine::answerer::Answerer;
pub use engine::drain::Drain;
pub use engine::outlet::Outlet;
pub use laws::{one_turn, so_far_fits, stands_so_far, texts_go_on, turns_fit};
pub use serve::{SessionEnd, serve_session};
pub use session::Session;
pub use session::counts::Counts;
pub use session::cut::Cut;
pub use traces::trace_laws::lines_end_once;
pub use traces::trace_line::TraceLines;
