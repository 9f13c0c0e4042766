//! Dumps of a level, commands 21 and 23 of this project's profile: how one is asked for, and the pages that answer it.

ghost use Rattle.std.specs.Prelude.{◌≡◌, ◌+◌, ◌/◌, ◌%◌, ◌<◌, ◌≤◌, [], ◌∷◌, ◌++◌, length, map};
ghost use Rattle.std.specs.Prelude.{All, vec_len, vec_capacity};
ghost use Rattle.std.specs.List.{flat_map};
ghost use Rattle.swp08_messages.specs.Field.{levels, dests, number_of, IsSource};
ghost use Rattle.swp08_messages.specs.Row.{one_level};
ghost use Rattle.swp08_messages.specs.Dump.{page_dests, max_dump_len, wide_bytes, dump_text};
ghost use Rattle.swp08_messages.specs.ReadingInside.{dump_message};

use crate::behind::{level_in, matrix_in};
use crate::field::{Field, WHOLE_PART, number, place_byte};
use crate::message::Message;
use crate::view::{View, Views};

pub(crate) const DUMP_ASK: u8 = 21;

// The command of a page.
const DUMP: u8 = 23;

/// The fields of a level.
#[inline(always)]
pub(crate) fn one_level<V: View>(matrix: u8, level: u8) -> Views<V>
    ensures { result.items ≡ map V.view_of (one_level matrix level) }
{
    let mut fields = Views::new();
    fields.push(V::of(Field::MatrixLevel(matrix, level)));
    fields
}

/// The message of a command by the bytes behind it as they come, `None` where the command isn't that of a dump.
pub(crate) fn read(command: u8, behind: &[u8]) -> Option<Message>
    ensures { result ≡ dump_message command behind.now }
{
    if command == DUMP_ASK {
        Some(Message::DumpAsk {
            matrix: matrix_in(behind),
            level: level_in(behind),
        })
    } else {
        None
    }
}

/// Appends the DATA of a page of a dump: the sources of destinations of a level in order, from `first` on. A page has 1 to
/// 64 destinations, and `None` is a parked one. It takes no memory.
pub fn write_dump(matrix: u8, level: u8, first: u16, sources: &[Option<u16>], out: &mut Vec<u8>)
    requires matrix { matrix < levels }
    requires level { level < levels }
    requires some { 1 ≤ length sources.now }
    requires most { length sources.now ≤ page_dests }
    requires page { first + length sources.now ≤ dests }
    requires sources { All IsSource sources.now }
    requires room { vec_len out.old + max_dump_len ≤ vec_capacity out.old }
    ensures text { out.new.items ≡ out.old.items ++ dump_text matrix level first sources.now }
    ensures room { vec_capacity out.new ≡ vec_capacity out.old }
{
    out.push_reserved(DUMP);
    out.push_reserved(place_byte(matrix, level));
    out.push_reserved(sources.len() as u8);
    push_wide(first, out);
    for source in sources {
        push_wide(number(*source), out);
    }
}

// Appends a number in two whole bytes, the high one first.
fn push_wide(number: u16, out: &mut Vec<u8>)
    requires room { vec_len out.old + 2 ≤ vec_capacity out.old }
    ensures text { out.new.items ≡ out.old.items ++ wide_bytes number }
    ensures len { vec_len out.new ≡ vec_len out.old + 2 }
    ensures room { vec_capacity out.new ≡ vec_capacity out.old }
{
    out.push_reserved((number / WHOLE_PART) as u8);
    out.push_reserved((number % WHOLE_PART) as u8);
}
