//! The words of a command line, read over a table of commands: what stands behind the name of each, and what words ask for. The
//! plant, the files and the net are not looked at.
#![tactic(auto)]

mod clap_forms;
mod names;
mod parts;
mod table;

pub use parts::{FileKind, Last, Low, Part};
pub use table::{Asked, Line, read_quiet, read_waiting};
