//! Why bytes are no packet.

ghost use Rattle.std.specs.Prelude.{◌≡◌};
ghost use Rattle.tsl_umd5.specs.Kind.{kind_name};

use thiserror::Error;

/// The first rule that bytes break, from the left to the right. The refusals and their order are this crate's
/// profile, not the protocol's. Places count bytes from the packet's first one, which is 0.
#[derive(Clone, Copy, Debug, PartialEq, Eq, Error)]
pub enum TslFault {
    /// So many bytes, more than a packet may have.
    #[error("{0} bytes are more than a packet may have")]
    TooLong(usize),
    /// Bytes are missing: there are fewer than six in all, and this is how many; or the display message that
    /// begins at this place goes past the end.
    #[error("a packet or a display message is cut off at byte {0}")]
    Short(usize),
    /// So many bytes follow PBC, and PBC counts so many.
    #[error("{0} bytes follow the byte count, which is {1}")]
    WrongCount(usize, usize),
    /// VER is not 0.
    #[error("version {0} is not 0")]
    Version(u8),
    /// FLAGS is not 0.
    #[error("flags {0} are not 0")]
    Flags(u8),
    /// One of the bits 8 to 15 of CONTROL is set for the display of this index.
    #[error("the display of index {0} has a reserved bit set")]
    ReservedBits(u16),
    /// The byte of a text at this place is not from 32 to 126.
    #[error("the byte at place {0} is no printable ASCII character")]
    NotAscii(usize),
}

impl TslFault {
    /// The name of its kind, without the numbers.
    pub fn kind_name(self) -> &'static str
        ensures { result.now ≡ kind_name self }
    {
        match self {
            TslFault::TooLong(_) => "TooLong",
            TslFault::Short(_) => "Short",
            TslFault::WrongCount(_, _) => "WrongCount",
            TslFault::Version(_) => "Version",
            TslFault::Flags(_) => "Flags",
            TslFault::ReservedBits(_) => "ReservedBits",
            TslFault::NotAscii(_) => "NotAscii",
        }
    }
}
