//! The adapters over the operating system: they show no bytes, and count each error but that of an interrupted call,
//! which is made again.

mod answers;
mod attempts;
mod file_sink;
mod file_source;
mod std_disk;
mod std_files;
mod std_out;

pub use answers::write_answer;
pub use attempts::{call_again, read_again, write_again};
pub use file_sink::FileSink;
pub use file_source::FileSource;
pub use std_disk::StdDisk;
pub use std_files::StdFiles;
pub use std_out::StdOut;
