//! How a line is read.

mod field;
mod hexadecimal;
pub(crate) mod line;
mod number;
mod request;
