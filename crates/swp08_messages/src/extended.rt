//! The extended commands, 129 to 132 of this project's profile: the messages of crosspoints once more, with numbers in two
//! whole bytes, so that a level may have up to 65,536 destinations and 65,535 sources.

ghost use Rattle.std.specs.Prelude.{◌≡◌, map};
ghost use Rattle.swp08_messages.specs.Row.{ext_destination, ext_crosspoint};
ghost use Rattle.swp08_messages.specs.ReadingInside.{extended_message, ext_point_in, ext_source_in};

use crate::behind::{byte_at, wide_at, wide_in};
use crate::field::Field;
use crate::message::Message;
use crate::point::{EXT_PARKED, Point};
use crate::view::{View, Views};

pub(crate) const EXT_INTERROGATE: u8 = 129;

pub(crate) const EXT_CONNECT: u8 = 130;

pub(crate) const EXT_TALLY: u8 = 131;

pub(crate) const EXT_CONNECTED: u8 = 132;

/// The fields of a destination.
#[inline(always)]
pub(crate) fn ext_destination<V: View>(at: Point) -> Views<V>
    ensures { result.items ≡ map V.view_of (ext_destination at) }
{
    let mut fields = Views::new();
    fields.push(V::of(Field::ExtMatrix(at.matrix)));
    fields.push(V::of(Field::ExtLevel(at.level)));
    fields.push(V::of(Field::NumberHigh(at.dest)));
    fields.push(V::of(Field::NumberLow(at.dest)));
    fields
}

/// The fields of a destination and the source at it.
#[inline(always)]
pub(crate) fn ext_crosspoint<V: View>(at: Point, source: Option<u16>) -> Views<V>
    ensures { result.items ≡ map V.view_of (ext_crosspoint at source) }
{
    let mut fields = ext_destination(at);
    fields.push(V::of(Field::ExtSourceHigh(source)));
    fields.push(V::of(Field::ExtSourceLow(source)));
    fields
}

/// The message of a command by the bytes behind it as they come, `None` where none of these messages has the command.
pub(crate) fn read(command: u8, behind: &[u8]) -> Option<Message>
    ensures { result ≡ extended_message command behind.now }
{
    let at = point_in(behind);
    let source = source_in(behind);
    match command {
        EXT_INTERROGATE => Some(Message::ExtInterrogate { at }),
        EXT_CONNECT => Some(Message::ExtConnect { at, source }),
        EXT_TALLY => Some(Message::ExtTally { at, source }),
        EXT_CONNECTED => Some(Message::ExtConnected { at, source }),
        _ => None,
    }
}

// The destination, in four bytes.
fn point_in(behind: &[u8]) -> Point
    ensures { result ≡ ext_point_in behind.now }
{
    Point {
        matrix: byte_at(behind, 0),
        level: byte_at(behind, 1),
        dest: wide_in(behind),
    }
}

// The source behind it, in two.
fn source_in(behind: &[u8]) -> Option<u16>
    ensures { result ≡ ext_source_in behind.now }
{
    let number = wide_at(behind, 4);
    if number == EXT_PARKED {
        None
    } else {
        Some(number)
    }
}
