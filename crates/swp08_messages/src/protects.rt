//! The messages of protects, commands 10 to 15 of this project's profile: the fields that they are written with, and how
//! their bytes are read.

ghost use Rattle.std.specs.Prelude.{◌≡◌, map};
ghost use Rattle.swp08_messages.specs.Row.{protect, protect_told};
ghost use Rattle.swp08_messages.specs.ReadingInside.{protect_message};

use crate::behind::{byte_at, point_at, second_at};
use crate::field::Field;
use crate::message::Message;
use crate::point::Point;
use crate::view::{View, Views};

pub(crate) const PROTECT_ASK: u8 = 10;

pub(crate) const PROTECT_TALLY: u8 = 11;

pub(crate) const PROTECT_CONNECT: u8 = 12;

pub(crate) const PROTECT_CONNECTED: u8 = 13;

pub(crate) const PROTECT_DISCONNECT: u8 = 14;

pub(crate) const PROTECT_DISCONNECTED: u8 = 15;

/// The fields of a destination and a device.
#[inline(always)]
pub(crate) fn protect<V: View>(at: Point, device: u16) -> Views<V>
    ensures { result.items ≡ map V.view_of (protect at device) }
{
    let mut fields = Views::new();
    fields.push(V::of(Field::MatrixLevel(at.matrix, at.level)));
    fields.push(V::of(Field::ProtectHigh(at.dest, device)));
    fields.push(V::of(Field::DestLow(at.dest)));
    fields.push(V::of(Field::DeviceLow(device)));
    fields
}

/// The fields of a destination, whether a device protects it, and which.
#[inline(always)]
pub(crate) fn protect_told<V: View>(at: Point, owned: bool, device: u16) -> Views<V>
    ensures { result.items ≡ map V.view_of (protect_told at owned device) }
{
    let mut fields = Views::new();
    fields.push(V::of(Field::MatrixLevel(at.matrix, at.level)));
    fields.push(V::of(Field::Details(owned)));
    fields.push(V::of(Field::ProtectHigh(at.dest, device)));
    fields.push(V::of(Field::DestLow(at.dest)));
    fields.push(V::of(Field::DeviceLow(device)));
    fields
}

/// The message of a command by the bytes behind it as they come, `None` where none of these messages has the command.
/// Where it is told whether a device protects a destination, that stands in front of the multiplier.
pub(crate) fn read(command: u8, behind: &[u8]) -> Option<Message>
    ensures { result ≡ protect_message command behind.now }
{
    let at = point_at(behind, 1, 2);
    let device = second_at(behind, 1, 3);
    let owned = byte_at(behind, 1) == 1;
    let told_at = point_at(behind, 2, 3);
    let told_device = second_at(behind, 2, 4);
    match command {
        PROTECT_ASK => Some(Message::ProtectAsk { at }),
        PROTECT_TALLY => Some(Message::ProtectTally {
            at: told_at,
            owned,
            device: told_device,
        }),
        PROTECT_CONNECT => Some(Message::ProtectConnect { at, device }),
        PROTECT_CONNECTED => Some(Message::ProtectConnected {
            at: told_at,
            owned,
            device: told_device,
        }),
        PROTECT_DISCONNECT => Some(Message::ProtectDisconnect { at, device }),
        PROTECT_DISCONNECTED => Some(Message::ProtectDisconnected {
            at: told_at,
            owned,
            device: told_device,
        }),
        _ => None,
    }
}
