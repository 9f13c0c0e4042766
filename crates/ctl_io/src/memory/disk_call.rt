//! The calls that a disk in memory records.

/// A write: its place, where its bytes begin among all bytes that were written, and how many it has.
#[derive(Clone, Copy, Debug, PartialEq, Eq)]
pub struct WriteSpan {
    pub at: usize,
    pub from: usize,
    pub len: usize,
}

/// A call of a disk in memory, and whether it was done.
#[derive(Clone, Copy, Debug, PartialEq, Eq)]
pub enum DiskCall {
    Read { done: bool },
    Write { span: WriteSpan, done: bool },
    Sync { done: bool },
}
