//! What an audit finds.

use ctl_io::Bytes;

/// What an audit finds in a trace. Positions are 0 to 2^62.
#[derive(Debug, Drop)]
pub enum Verdict {
    /// So many lines are the history of a plant from its start, without a gap.
    Confirmed(u64),
    /// The line of this number, counted from 1, is the first that tells no entry of the plant's history.
    BadLine(u64),
    /// No line has this position, and one has a greater one.
    Gap(u64),
    /// Several lines have this position.
    Repeat(u64),
    /// The line of this position keeps another reply than the plant's.
    Differs {
        /// 0 to 2^62.
        position: u64,
        /// The reply's text, as the line has it.
        kept: Bytes,
        /// The text of the plant's reply.
        wanted: Bytes,
    },
}
