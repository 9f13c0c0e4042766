//! The messages of crosspoints, commands 1 to 4 of SW-P-08: the fields that they are written with, how their bytes are
//! read, and the DATA of those that tell a crosspoint.

ghost use Rattle.std.specs.Prelude.{◌≡◌, ◌∷◌, ◌↔◌, IsTrue, map, MatchOption};
ghost use Rattle.swp08_messages.specs.declared.message.Message.{Message};
ghost use Rattle.swp08_messages.specs.Row.{destination, crosspoint};
ghost use Rattle.swp08_messages.specs.Text.{text, InRange, TellsInFiveBytes};
ghost use Rattle.swp08_messages.specs.Spelled.{Spells};
ghost use Rattle.swp08_messages.specs.ReadingInside.{crosspoint_message, AsksOfCrosspoint};
ghost use Rattle.swp08_messages.specs.ReadingInside.{AreDestination, AreCrosspoint};
ghost use Rattle.swp08_messages.specs.ViewsInside.{written};

use crate::behind::{point_at, source_in};
use crate::field::{Field, PART};
use crate::message::Message;
use crate::point::Point;
use crate::view::{View, Views};

pub(crate) const INTERROGATE: u8 = 1;

pub(crate) const CONNECT: u8 = 2;

pub(crate) const TALLY: u8 = 3;

pub(crate) const CONNECTED: u8 = 4;

/// The fields of a destination.
#[inline(always)]
pub(crate) fn destination<V: View>(at: Point) -> Views<V>
    ensures { result.items ≡ map V.view_of (destination at) }
{
    let mut fields = Views::new();
    fields.push(V::of(Field::MatrixLevel(at.matrix, at.level)));
    fields.push(V::of(Field::DestHigh(at.dest)));
    fields.push(V::of(Field::DestLow(at.dest)));
    fields
}

/// The fields of a destination and the source at it.
#[inline(always)]
pub(crate) fn crosspoint<V: View>(at: Point, source: Option<u16>) -> Views<V>
    ensures { result.items ≡ map V.view_of (crosspoint at source) }
{
    let mut fields = Views::new();
    fields.push(V::of(Field::MatrixLevel(at.matrix, at.level)));
    fields.push(V::of(Field::CrosspointHigh(at.dest, source)));
    fields.push(V::of(Field::DestLow(at.dest)));
    fields.push(V::of(Field::SourceLow(source)));
    fields
}

/// The message of a command by the bytes behind it as they come, a missing one taken as 0: they are then held to its row.
/// `None` where none of these messages has the command.
pub(crate) fn read(command: u8, behind: &[u8]) -> Option<Message>
    ensures { result ≡ crosspoint_message command behind.now }
{
    let at = point_at(behind, 1, 2);
    let source = source_in(behind);
    match command {
        INTERROGATE => Some(Message::Interrogate { at }),
        CONNECT => Some(Message::Connect { at, source }),
        TALLY => Some(Message::Tally { at, source }),
        CONNECTED => Some(Message::Connected { at, source }),
        _ => None,
    }
}

// Short way: the message that DATA spell where it is an interrogate or a connect, which panels send most. `None` of other
// DATA.
#[inline(always)]
pub(crate) fn read_asked(bytes: &[u8]) -> Option<Message>
    ensures { MatchOption result
        ((message : Message) → AsksOfCrosspoint message → Spells bytes.now message → ⊥)
        (λ message. Spells bytes.now message) }
{
    let [command, behind @ ..] = bytes else {
        return None;
    };
    match *command {
        INTERROGATE if are_destination(behind) => Some(Message::Interrogate {
            at: point_at(behind, 1, 2),
        }),
        CONNECT if are_crosspoint(behind) => Some(Message::Connect {
            at: point_at(behind, 1, 2),
            source: source_in(behind),
        }),
        _ => None,
    }
}

// Whether the bytes behind a command are those of a destination: three, the last of them a low part.
#[inline(always)]
fn are_destination(behind: &[u8]) -> bool
    ensures { IsTrue result ↔ AreDestination behind.now }
{
    behind.len() == 3 && u16::from(behind[2]) < PART
}

// The same of a destination and the source at it: four, the last two of them low parts.
#[inline(always)]
fn are_crosspoint(behind: &[u8]) -> bool
    ensures { IsTrue result ↔ AreCrosspoint behind.now }
{
    behind.len() == 4 && u16::from(behind[2]) < PART && u16::from(behind[3]) < PART
}

impl Message {
    /// The canonical DATA of a tally or a connected, five bytes each. `None` of any other message, also of those of the
    /// extended commands, which are longer.
    // Short way: five bytes in a value, which nearly every answer is, in place of `write`.
    #[inline(always)]
    pub fn five_byte_text(&self) -> Option<[u8; 5]>
        requires in_range { InRange self.now }
        ensures { MatchOption result
            (TellsInFiveBytes self.now → ⊥)
            (λ bytes. TellsInFiveBytes self.now × (bytes ≡ text self.now)) }
    {
        match *self {
            Message::Tally { at, source } => Some(crosspoint_text(TALLY, at, source)),
            Message::Connected { at, source } => Some(crosspoint_text(CONNECTED, at, source)),
            _ => None,
        }
    }
}

// The DATA of a command, a destination and the source at it.
#[inline(always)]
fn crosspoint_text(command: u8, at: Point, source: Option<u16>) -> [u8; 5]
    ensures { result ≡ command ∷ map written (crosspoint at source) }
{
    [
        command,
        Field::MatrixLevel(at.matrix, at.level).byte(),
        Field::CrosspointHigh(at.dest, source).byte(),
        Field::DestLow(at.dest).byte(),
        Field::SourceLow(source).byte(),
    ]
}
