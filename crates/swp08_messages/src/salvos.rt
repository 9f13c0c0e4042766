//! The messages of salvos, commands 120 to 125 of this project's profile: the fields that they are written with, and how
//! their bytes are read.

ghost use Rattle.std.specs.Prelude.{◌≡◌, map};
ghost use Rattle.swp08_messages.specs.Row.{stored_crosspoint, go, go_done, entry_ask, entry};
ghost use Rattle.swp08_messages.specs.ReadingInside.{salvo_message};

use crate::behind::{byte_at, point_at, source_in};
use crate::crosspoints::crosspoint;
use crate::field::Field;
use crate::go_status::GoStatus;
use crate::message::Message;
use crate::point::Point;
use crate::validity::Validity;
use crate::view::{View, Views};

pub(crate) const STORE: u8 = 120;

pub(crate) const GO: u8 = 121;

pub(crate) const STORED: u8 = 122;

pub(crate) const GO_DONE: u8 = 123;

pub(crate) const ENTRY_ASK: u8 = 124;

pub(crate) const ENTRY: u8 = 125;

/// The fields of a crosspoint and the salvo that it is stored in.
#[inline(always)]
pub(crate) fn stored_crosspoint<V: View>(at: Point, source: Option<u16>, salvo: u8) -> Views<V>
    ensures { result.items ≡ map V.view_of (stored_crosspoint at source salvo) }
{
    let mut fields = crosspoint(at, source);
    fields.push(V::of(Field::Salvo(salvo)));
    fields
}

/// The fields of an operation and the salvo that it is for.
#[inline(always)]
pub(crate) fn go<V: View>(clear: bool, salvo: u8) -> Views<V>
    ensures { result.items ≡ map V.view_of (go clear salvo) }
{
    let mut fields = Views::new();
    fields.push(V::of(Field::Operation(clear)));
    fields.push(V::of(Field::Salvo(salvo)));
    fields
}

/// The fields of a status and the salvo that has it.
#[inline(always)]
pub(crate) fn go_done<V: View>(status: GoStatus, salvo: u8) -> Views<V>
    ensures { result.items ≡ map V.view_of (go_done status salvo) }
{
    let mut fields = Views::new();
    fields.push(V::of(Field::Status(status)));
    fields.push(V::of(Field::Salvo(salvo)));
    fields
}

/// The fields of a salvo and a place in it.
#[inline(always)]
pub(crate) fn entry_ask<V: View>(salvo: u8, index: u8) -> Views<V>
    ensures { result.items ≡ map V.view_of (entry_ask salvo index) }
{
    let mut fields = Views::new();
    fields.push(V::of(Field::Salvo(salvo)));
    fields.push(V::of(Field::Index(index)));
    fields
}

/// The fields of a crosspoint that stands in a salvo at a place.
#[inline(always)]
pub(crate) fn entry<V: View>(
    at: Point,
    source: Option<u16>,
    salvo: u8,
    index: u8,
    validity: Validity,
) -> Views<V>
    ensures { result.items ≡ map V.view_of (entry at source salvo index validity) }
{
    let mut fields = stored_crosspoint(at, source, salvo);
    fields.push(V::of(Field::Index(index)));
    fields.push(V::of(Field::EntryValidity(validity)));
    fields
}

/// The message of a command by the bytes behind it as they come, `None` where none of these messages has the command.
pub(crate) fn read(command: u8, behind: &[u8]) -> Option<Message>
    ensures { result ≡ salvo_message command behind.now }
{
    let at = point_at(behind, 1, 2);
    let source = source_in(behind);
    let salvo = byte_at(behind, 4);
    match command {
        STORE => Some(Message::Store { at, source, salvo }),
        GO => Some(Message::Go {
            clear: byte_at(behind, 0) == 1,
            salvo: byte_at(behind, 1),
        }),
        STORED => Some(Message::Stored { at, source, salvo }),
        GO_DONE => Some(Message::GoDone {
            status: GoStatus::of_number(byte_at(behind, 0)),
            salvo: byte_at(behind, 1),
        }),
        ENTRY_ASK => Some(Message::EntryAsk {
            salvo: byte_at(behind, 0),
            index: byte_at(behind, 1),
        }),
        ENTRY => Some(Message::Entry {
            at,
            source,
            salvo,
            index: byte_at(behind, 5),
            validity: Validity::of_number(byte_at(behind, 6)),
        }),
        _ => None,
    }
}
