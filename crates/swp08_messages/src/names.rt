//! The messages that ask for names, commands 100 to 103 of this project's profile: the fields that they are written with,
//! and how their bytes are read.

ghost use Rattle.std.specs.Prelude.{◌≡◌, map};
ghost use Rattle.swp08_messages.specs.Row.{source_names_ask, source_name_ask};
ghost use Rattle.swp08_messages.specs.Row.{dest_names_ask, dest_name_ask};
ghost use Rattle.swp08_messages.specs.ReadingInside.{names_message};

use crate::behind::{byte_at, level_in, matrix_in, wide_in};
use crate::field::Field;
use crate::message::Message;
use crate::view::{View, Views};

pub(crate) const SOURCE_NAMES_ASK: u8 = 100;

pub(crate) const SOURCE_NAME_ASK: u8 = 101;

pub(crate) const DEST_NAMES_ASK: u8 = 102;

pub(crate) const DEST_NAME_ASK: u8 = 103;

/// The fields of all sources of a level.
#[inline(always)]
pub(crate) fn source_names_ask<V: View>(matrix: u8, level: u8, size: u8) -> Views<V>
    ensures { result.items ≡ map V.view_of (source_names_ask matrix level size) }
{
    let mut fields = Views::new();
    fields.push(V::of(Field::MatrixLevel(matrix, level)));
    fields.push(V::of(Field::NameSize(size)));
    fields
}

/// The fields of a source of a level.
#[inline(always)]
pub(crate) fn source_name_ask<V: View>(matrix: u8, level: u8, size: u8, number: u16) -> Views<V>
    ensures { result.items ≡ map V.view_of (source_name_ask matrix level size number) }
{
    let mut fields = source_names_ask(matrix, level, size);
    fields.push(V::of(Field::NumberHigh(number)));
    fields.push(V::of(Field::NumberLow(number)));
    fields
}

/// The fields of all destinations of a matrix.
#[inline(always)]
pub(crate) fn dest_names_ask<V: View>(matrix: u8, size: u8) -> Views<V>
    ensures { result.items ≡ map V.view_of (dest_names_ask matrix size) }
{
    let mut fields = Views::new();
    fields.push(V::of(Field::Matrix(matrix)));
    fields.push(V::of(Field::NameSize(size)));
    fields
}

/// The fields of a destination of a matrix.
#[inline(always)]
pub(crate) fn dest_name_ask<V: View>(matrix: u8, size: u8, number: u16) -> Views<V>
    ensures { result.items ≡ map V.view_of (dest_name_ask matrix size number) }
{
    let mut fields = dest_names_ask(matrix, size);
    fields.push(V::of(Field::NumberHigh(number)));
    fields.push(V::of(Field::NumberLow(number)));
    fields
}

/// The message of a command by the bytes behind it as they come, `None` where none of these messages has the command.
pub(crate) fn read(command: u8, behind: &[u8]) -> Option<Message>
    ensures { result ≡ names_message command behind.now }
{
    let matrix = matrix_in(behind);
    let level = level_in(behind);
    let size = byte_at(behind, 1);
    let number = wide_in(behind);
    match command {
        SOURCE_NAMES_ASK => Some(Message::SourceNamesAsk {
            matrix,
            level,
            size,
        }),
        SOURCE_NAME_ASK => Some(Message::SourceNameAsk {
            matrix,
            level,
            size,
            number,
        }),
        DEST_NAMES_ASK => Some(Message::DestNamesAsk { matrix, size }),
        DEST_NAME_ASK => Some(Message::DestNameAsk {
            matrix,
            size,
            number,
        }),
        _ => None,
    }
}
