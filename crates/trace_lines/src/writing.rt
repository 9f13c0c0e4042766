//! How a line is written.

pub(crate) mod line_room;
mod request_line;
