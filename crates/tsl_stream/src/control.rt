//! The control bytes of packets on a stream.
use tsl_umd5::MAX_PACKET;

/// Before STX, by which a packet starts; a byte of its value in a packet is sent twice.
pub const DLE: u8 = 0xFE;
/// Behind a DLE: a packet starts.
pub const STX: u8 = 0x02;

/// The most bytes that one packet takes on a stream: DLE STX, and each of its bytes twice.
pub const MAX_STREAM: usize = 2 * MAX_PACKET + 2;
