//! One short use of each crate, which its PROMISES.md shows word for word.

mod of_command_words;
mod of_commands;
