//! The tests of the crates that carry bytes and hold what is shared, from the outside and the frames to the lock.
//! Each crate has its example in `examples`, and what no clause of it says in the module that is named for it.
//! They use what the crates give to all, and stand above them, so that each crate is proved once.
#![tactic(auto)]

#[cfg(test)]
mod examples;
#[cfg(test)]
mod of_ctl_io;
#[cfg(test)]
mod of_ctl_net;
#[cfg(test)]
mod of_dle_framing;
#[cfg(test)]
mod of_history_lock;
#[cfg(test)]
mod of_line_text;
#[cfg(test)]
mod of_matrix_driver;
#[cfg(test)]
mod of_swp08_messages;
#[cfg(test)]
mod of_tsl_stream;
#[cfg(test)]
mod of_tsl_umd5;
