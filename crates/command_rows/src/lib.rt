//! What all commands of `plantctl` share. A command is a row: what is given for the parts of its form, and what it promises
//! of that (`specs/Row.antt`). What its words name is opened in their order (`specs/Opener.antt`), or stops the run with a line
//! and a status that are the same for every command (`specs/End.antt`).
#![tactic(auto)]

mod laws;
mod number;
mod plant;
mod script;
mod status;
mod stop;
mod traces;
mod whole;
mod written;

pub use laws::{opening, shown};
pub use number::said_number;
pub use plant::open_plant;
pub use script::{read_script, refuse_line};
pub use status::Status;
pub use stop::Stop;
pub use traces::read_traces;
pub use whole::read_whole_file;
pub use written::{write_number, write_pair, write_parts};
