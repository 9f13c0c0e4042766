//! Why DATA is no message.

use thiserror::Error;

/// Why DATA is no message: the first of these faults. Commands 1 to 4 and their lengths are those of the SW-P-08
/// General Remote Control Protocol; the others, and that DATA is refused with which fault, are this project's profile.
#[derive(Clone, Copy, Debug, PartialEq, Eq, Error)]
pub enum ReadFault {
    /// No message has this command byte.
    #[error("command {0} is unknown")]
    UnknownCommand(u8),
    /// So many bytes were found, and so many are wanted, the command being one of them. Of no bytes at all, 1 is wanted,
    /// and of an interrogate of a protect 4, though it may have 5.
    #[error("{0} bytes of DATA, where {1} are wanted")]
    WrongLength(usize, usize),
    /// The byte at this place, counted from the command at 0, is no value of its field: the low part of a destination,
    /// a source or a device is above 127, or a salvo is; the size of a name is above 2, or the validity of an entry is; the
    /// details of a protect are above 1, or the operation of a go is; the status of a go is above 4; the matrix or the level
    /// of an extended command is above 15. A matrix with its level, a multiplier, the number of a name, the index of an
    /// entry, and the destination and the source of an extended command have no bad value.
    #[error("byte {1} at place {0} is no value of its field")]
    BadField(usize, u8),
}
