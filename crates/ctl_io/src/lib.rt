//! The outside of the program, as traits: sources of bytes, sinks for bytes, and files by their names.
//! An object may show what it holds, and counts its own faults, so that a contract can say which bytes passed and that
//! no fault is made up. Each comes in memory, where it fails at listed calls, and as a thin adapter over the system.
#![tactic(auto)]

mod bytes;
mod disk;
mod faults;
mod files;
mod memory;
mod sink;
mod source;
mod system;
mod transfer;
mod whole_file;

pub use bytes::Bytes;
pub use disk::{Did, Disk};
pub use faults::FaultCount;
pub use files::{Files, Found, Made};
pub use memory::{
    CallCount, DiskCall, Dropped, MemDisk, MemFiles, MemSink, MemSource, NamedDisk, NamedSink,
    NamedSource, WriteSpan,
};
pub use sink::{Sink, Write};
pub use source::{Read, Source};
pub use system::{
    FileSink, FileSource, StdDisk, StdFiles, StdOut, call_again, read_again, write_again,
    write_answer,
};
pub use transfer::{WholeFault, read_whole, write_all};
pub use whole_file::{FileFault, read_file};
