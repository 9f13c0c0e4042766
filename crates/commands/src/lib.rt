//! The commands of `plantctl`, the controller of a television plant's routers: what the words of the command line ask is
//! done, and the exit status tells how it ended. The top call is `run`, which does all that the program does, over any
//! files, gate and output. What the exit statuses tell are the laws of `laws` and `program_laws`, and those of the crate of each
//! command.
#![tactic(auto)]

mod laws;
mod program;
mod program_laws;
mod quiet;
mod rows;

pub use laws::{asked, each_row, files_stay, history_shown, output_fault, statuses, usage_told};
pub use program::{end_without_memory, run};
pub use program_laws::{program_output, program_usage, served_whole, waits};
pub use quiet::run_quiet;
pub use rows::{Verb, quiet_command, usage, waiting_command};
