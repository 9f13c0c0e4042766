//! The messages, and what is done with every one of them by its row.

ghost use Rattle.std.specs.Prelude.{◌≡◌, ◌+◌, ◌≤◌, ◌++◌, ◌↔◌, IsTrue, Ok, Err, Some, MatchResult};
ghost use Rattle.std.specs.Prelude.{MatchOption, vec_len, vec_capacity};
ghost use Rattle.swp08_messages.specs.declared.message.Message.{Message};
ghost use Rattle.swp08_messages.specs.declared.fault.ReadFault.{ReadFault};
ghost use Rattle.swp08_messages.specs.Row.{row};
ghost use Rattle.swp08_messages.specs.Text.{text, InRange};
ghost use Rattle.swp08_messages.specs.Spelled.{Spells};
ghost use Rattle.swp08_messages.specs.Refused.{IsRefused};
ghost use Rattle.swp08_messages.specs.Laws.{ReadsSpelled, ReadsRefused};
ghost use Rattle.swp08_messages.specs.ReadingInside.{message_of};

use crate::fault::ReadFault;
use crate::go_status::GoStatus;
use crate::point::Point;
use crate::row::{all_hold, are_same, push_all};
use crate::validity::Validity;
use crate::{crosspoints, dump, extended, names, protects, salvos};

/// A message of fixed length. Interrogate, connect, tally and connected have the number and the layout that the SW-P-08
/// General Remote Control Protocol gives them, all others those of this project's profile. A matrix and a level are 0 to
/// 15. A source is 0 to 1022, in the extended commands 0 to 65534, and `None` is a parked one, by this project's profile.
#[derive(Clone, Copy, Debug, PartialEq, Eq)]
pub enum Message {
    /// Asks for the source at a destination.
    Interrogate {
        at: Point,
    },
    /// Asks that a destination carry a source, or be parked.
    Connect {
        at: Point,
        source: Option<u16>,
    },
    /// Tells the source at a destination.
    Tally {
        at: Point,
        source: Option<u16>,
    },
    /// Tells that a destination was given a source, or was parked.
    Connected {
        at: Point,
        source: Option<u16>,
    },
    /// Asks which device protects a destination. Its DATA may name a device behind the destination, which isn't kept.
    ProtectAsk {
        at: Point,
    },
    /// Tells whether a device protects a destination, and which. Where none does, the device is told as 0, but DATA that
    /// says another one is read and written as it is.
    ProtectTally {
        at: Point,
        owned: bool,
        device: u16,
    },
    /// Asks that a destination be protected. The device, 0 to 1023, is what the panel calls itself.
    ProtectConnect {
        at: Point,
        device: u16,
    },
    /// Tells that a destination is protected now, and by which device, as in a tally.
    ProtectConnected {
        at: Point,
        owned: bool,
        device: u16,
    },
    /// Asks that the protect of a destination be lifted.
    ProtectDisconnect {
        at: Point,
        device: u16,
    },
    /// Tells that the protect of a destination was lifted, as in a tally.
    ProtectDisconnected {
        at: Point,
        owned: bool,
        device: u16,
    },
    /// Asks for the sources at all destinations of a level.
    DumpAsk {
        matrix: u8,
        level: u8,
    },
    /// Asks for the names of all sources of a level. The size, 0 to 2, says how long a name may be.
    SourceNamesAsk {
        matrix: u8,
        level: u8,
        size: u8,
    },
    /// Asks for the name of a source of a level, 0 to 65535, whether the level has it or not.
    SourceNameAsk {
        matrix: u8,
        level: u8,
        size: u8,
        number: u16,
    },
    /// Asks for the names of all destinations of a matrix.
    DestNamesAsk {
        matrix: u8,
        size: u8,
    },
    /// Asks for the name of a destination of a matrix, 0 to 65535, whether the matrix has it or not.
    DestNameAsk {
        matrix: u8,
        size: u8,
        number: u16,
    },
    /// Asks that a salvo, 0 to 127, connect a destination to a source, or park it, when it goes.
    Store {
        at: Point,
        source: Option<u16>,
        salvo: u8,
    },
    /// Asks that all entries of a salvo be made at once, or that they be cleared and none be made.
    Go {
        clear: bool,
        salvo: u8,
    },
    /// Tells that a salvo has this entry now.
    Stored {
        at: Point,
        source: Option<u16>,
        salvo: u8,
    },
    /// Tells what became of a salvo that was to go or to be cleared.
    GoDone {
        status: GoStatus,
        salvo: u8,
    },
    /// Asks for an entry of a salvo, by its place from 0.
    EntryAsk {
        salvo: u8,
        index: u8,
    },
    /// Tells the entry of a salvo at a place, and whether more follow. Where there is none, the destination and the source
    /// are told as 0.
    Entry {
        at: Point,
        source: Option<u16>,
        salvo: u8,
        index: u8,
        validity: Validity,
    },
    /// Asks for the source at a destination, 0 to 65535: the first of the extended commands, for levels of more than 1,024
    /// destinations or 1,023 sources. They state nothing of the protocol's own extended messages.
    ExtInterrogate {
        at: Point,
    },
    /// Asks that a destination carry a source, or be parked.
    ExtConnect {
        at: Point,
        source: Option<u16>,
    },
    /// Tells the source at a destination.
    ExtTally {
        at: Point,
        source: Option<u16>,
    },
    /// Tells that a destination was given a source, or was parked.
    ExtConnected {
        at: Point,
        source: Option<u16>,
    },
}

/// What a message is for.
#[derive(Clone, Copy, Debug, PartialEq, Eq)]
pub enum MessageKind {
    /// It asks something of the plant.
    Plant,
    /// It tells something of the plant, and isn't answered.
    Report,
    /// It asks for names, which never change.
    Names,
}

impl Message {
    /// The most bytes of a message's DATA.
    pub const MAX_LEN: usize = 8;

    /// Whether each number of the message has room in its bytes.
    pub fn in_range(&self) -> bool
        ensures { IsTrue result ↔ InRange self.now }
    {
        all_hold(self.fields::<bool>().as_slice())
    }

    /// The message that DATA spells, or the first fault. Bits 3 and 7 of the multiplier are not looked at, nor are bits 0
    /// to 2 of an interrogate's, of a crosspoint or of a protect, which has no second number, nor the bits of a level where
    /// names of destinations are asked for. An interrogate of a protect may have one byte more, the low part of a device,
    /// which is held to its range and isn't kept: this is the project's profile.
    #[inline(always)]
    pub fn read(bytes: &[u8]) -> Result<Message, ReadFault>
        ensures read { MatchResult result
            (λ message. Spells bytes.now message)
            (λ fault. IsRefused bytes.now fault) }
        ensures only_ok { ReadsSpelled bytes.now result }
        ensures only_err { ReadsRefused bytes.now result }
    {
        match crosspoints::read_asked(bytes) {
            Some(message) => Ok(message),
            None => read_any(bytes),
        }
    }

    /// The message whose canonical DATA these bytes are. It takes no memory.
    pub fn read_text(bytes: &[u8]) -> Option<Message>
        ensures text { MatchOption result
            ((message : Message) → InRange message → bytes.now ≡ text message → ⊥)
            (λ message. InRange message × (bytes.now ≡ text message)) }
        ensures only { (message : Message)
            → InRange message → bytes.now ≡ text message → result ≡ Some message }
    {
        let [_, behind @ ..] = bytes else {
            return None;
        };
        let Ok(message) = Message::read(bytes) else {
            return None;
        };
        if are_same(behind, message.fields::<u8>().as_slice()) {
            Some(message)
        } else {
            None
        }
    }

    /// Appends the canonical DATA of the message. Bits that `read` doesn't look at are 0.
    pub fn write(&self, out: &mut Vec<u8>)
        requires in_range { InRange self.now }
        requires room { vec_len out.old + Self.MAX_LEN ≤ vec_capacity out.old }
        ensures text { out.new.items ≡ out.old.items ++ text self.now }
        ensures room { vec_capacity out.new ≡ vec_capacity out.old }
    {
        out.push_reserved(self.command());
        push_all(self.fields::<u8>().as_slice(), out);
    }
}

// The message that DATA of any command spells, or the first fault.
#[inline(never)]
fn read_any(bytes: &[u8]) -> Result<Message, ReadFault>
    ensures read { MatchResult result
        (λ message. Spells bytes.now message)
        (λ fault. IsRefused bytes.now fault) }
    ensures only_ok { ReadsSpelled bytes.now result }
    ensures only_err { ReadsRefused bytes.now result }
{
    let [command, behind @ ..] = bytes else {
        return Err(ReadFault::WrongLength(0, 1));
    };
    let Some(message) = read_unchecked(*command, behind) else {
        return Err(ReadFault::UnknownCommand(*command));
    };
    match message.fault(behind) {
        None => Ok(message),
        Some(fault) => Err(fault),
    }
}

// The message of a command by the bytes behind it as they come, a missing one taken as 0: they are then held to its row.
// `None` where no message has the command.
fn read_unchecked(command: u8, behind: &[u8]) -> Option<Message>
    ensures { result ≡ message_of command behind.now }
{
    crosspoints::read(command, behind)
        .or_else(|| protects::read(command, behind))
        .or_else(|| dump::read(command, behind))
        .or_else(|| names::read(command, behind))
        .or_else(|| salvos::read(command, behind))
        .or_else(|| extended::read(command, behind))
}
