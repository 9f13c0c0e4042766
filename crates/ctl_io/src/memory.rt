//! Objects in memory: they show their bytes, and fail at the calls that their lists name.

mod calls;
mod disk_call;
mod dropped;
mod mem_disk;
mod mem_disks;
mod mem_files;
mod mem_sink;
mod mem_source;
mod named;
mod named_objects;

pub use calls::CallCount;
pub use disk_call::{DiskCall, WriteSpan};
pub use dropped::Dropped;
pub use mem_disk::MemDisk;
pub use mem_files::MemFiles;
pub use mem_sink::MemSink;
pub use mem_source::MemSource;
pub use named_objects::{NamedDisk, NamedSink, NamedSource};
