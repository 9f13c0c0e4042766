//! The tests of the commands, over files and an output in memory, with an example of each crate in `examples`.
//! They use what `command_words` and `commands` give to all, and stand above them, so that each is proved once.
#![tactic(auto)]

#[cfg(test)]
mod examples;
#[cfg(test)]
mod of_commands;
