//! One short use of each crate, which its PROMISES.md shows word for word.

mod of_ctl_io;
mod of_ctl_net;
mod of_dle_framing;
mod of_doubled_bytes;
mod of_history_lock;
mod of_line_text;
mod of_matrix_driver;
mod of_number_tables;
mod of_seen_value;
mod of_state_store;
mod of_swp08_messages;
mod of_tap_lists;
mod of_tsl_stream;
mod of_tsl_umd5;
