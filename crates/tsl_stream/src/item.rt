//! The items of a stream of bytes.
use tsl_umd5::TslFault;

/// What a stream of bytes says. That noise and packets that are broken off are no items is this project's profile.
#[derive(Clone, Copy, Debug, PartialEq, Eq)]
pub enum StreamItem<'a> {
    /// A packet that `read_packet` accepts, with no byte of it doubled.
    Packet(&'a [u8]),
    /// Why the bytes behind a start are no packet. They are as many as their own count says, and the count alone where that
    /// is too great.
    Bad(TslFault),
}
