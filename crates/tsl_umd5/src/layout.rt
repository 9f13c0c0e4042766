//! The numbers of a packet.

/// VER: the version byte of the TSL UMD Protocol V5.0.
pub const VERSION: u8 = 0;

/// FLAGS of a packet of display messages with texts in ASCII, the one kind of this profile: bit 0 would announce
/// texts in UTF-16, and bit 1 screen control data.
pub const FLAGS: u8 = 0;

// The bytes of PBC, which doesn't count itself.
pub(crate) const COUNT_BYTES: usize = 2;

/// The bytes of PBC, VER, FLAGS and SCREEN, which begin each packet.
pub const PACKET_HEAD: usize = 6;

/// The bytes of INDEX, CONTROL and LENGTH, which begin each display message.
pub const MESSAGE_HEAD: usize = 6;

/// The most that the two bits of a brightness say.
pub const MAX_BRIGHTNESS: u8 = 3;

/// The first byte of printable ASCII, which is what this profile has of TEXT.
pub const FIRST_PRINTABLE: u8 = b' ';

/// The last byte of printable ASCII.
pub const LAST_PRINTABLE: u8 = b'~';

/// The most bytes of a whole packet, PBC among them, in this profile.
pub const MAX_PACKET: usize = 2048;
