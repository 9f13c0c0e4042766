//! Lines of a text, and what stands in them: where a line ends, numbers in decimal, and bytes in hexadecimal.
//! `split_line` takes a text's first line, and `join_lines` puts lines behind lines, whether or not the last has its LF.
//! `Room` has room for bytes that are written piece by piece. What is read and written takes no memory but by `join_lines`, and
//! rests on `specs/Lines.antt` and `specs/Decimal.antt`.
#![tactic(auto)]

mod bytes;
mod cut;
mod decimal;
mod hexadecimal;
mod laws;
mod lines;
mod room;

pub use bytes::append;
pub use cut::{MAX_LINE, SPACE, split_at};
pub use decimal::{MAX_DIGITS, append_decimal, read_decimal};
pub use hexadecimal::{append_hex, write_hex};
pub use laws::{texts_join, whole_lines_are_read};
pub use lines::{join_lines, split_line};
pub use room::Room;
