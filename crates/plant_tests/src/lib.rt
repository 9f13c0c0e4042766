//! The tests of the plant's crates, from the plant file to the machine of all that panels ask.
//! Each crate has its example in `examples`, and what no clause of it says in the module that is named for it.
//! They use what the crates give to all, and stand above them, so that each crate is proved once.
#![tactic(auto)]

#[cfg(test)]
mod examples;
#[cfg(test)]
mod of_plant_config;
#[cfg(test)]
mod of_plant_core;
#[cfg(test)]
mod of_plant_file;
#[cfg(test)]
mod of_plant_names;
#[cfg(test)]
mod of_plant_snapshot;
#[cfg(test)]
mod of_standby;
#[cfg(test)]
mod of_tally;
