//! Lines of a trace by the answers of their entries, and the law of lines.

pub(crate) mod trace_laws;
pub(crate) mod trace_line;
