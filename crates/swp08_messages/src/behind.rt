//! What the bytes behind a command give as they come, a missing one taken as 0.

ghost use Rattle.std.specs.Prelude.{◌≡◌, ◌+◌, ◌<◌, slice_index};
ghost use Rattle.swp08_messages.specs.ReadingInside.{matrix_in, level_in, point_of};
ghost use Rattle.swp08_messages.specs.ReadingInside.{second_of, source_in, wide_of, wide_in};

use crate::field::{PART, WHOLE_PART};
use crate::point::{PARKED, Point};

/// The byte at a place, counted from 0 behind the command.
#[inline(always)]
pub(crate) fn byte_at(behind: &[u8], place: usize) -> u8
    ensures { result ≡ slice_index behind.now place }
{
    behind.get(place).copied().unwrap_or(0)
}

/// The matrix, in bits 4 to 7 of the first byte.
pub(crate) fn matrix_in(behind: &[u8]) -> u8
    ensures { result ≡ matrix_in behind.now }
{
    byte_at(behind, 0) / 16
}

/// The level, in bits 0 to 3 of the first byte.
pub(crate) fn level_in(behind: &[u8]) -> u8
    ensures { result ≡ level_in behind.now }
{
    byte_at(behind, 0) % 16
}

/// The destination by its matrix and level, bits 4 to 6 of the multiplier at `high`, and its low part at `low`.
#[inline]
pub(crate) fn point_at(behind: &[u8], high: usize, low: usize) -> Point
    ensures { let at = slice_index behind.now in result ≡ point_of (at 0) (at high) (at low) }
{
    let part = byte_at(behind, high) / 16 % 8;
    Point {
        matrix: matrix_in(behind),
        level: level_in(behind),
        dest: u16::from(part) * PART + u16::from(byte_at(behind, low)),
    }
}

/// The source or the device by bits 0 to 2 of the multiplier at `high` and its low part at `low`.
#[inline]
pub(crate) fn second_at(behind: &[u8], high: usize, low: usize) -> u16
    ensures { let at = slice_index behind.now in result ≡ second_of (at high) (at low) }
{
    let part = byte_at(behind, high) % 8;
    u16::from(part) * PART + u16::from(byte_at(behind, low))
}

/// The number in two whole bytes, the high one at `high` and the low one behind it.
#[inline]
pub(crate) fn wide_at(behind: &[u8], high: usize) -> u16
    requires { high < 8 }
    ensures { let at = slice_index behind.now in result ≡ wide_of (at high) (at (high + 1)) }
{
    u16::from(byte_at(behind, high)) * WHOLE_PART + u16::from(byte_at(behind, high + 1))
}

/// The number of a name, or the destination of an extended command.
pub(crate) fn wide_in(behind: &[u8]) -> u16
    ensures { result ≡ wide_in behind.now }
{
    wide_at(behind, 2)
}

/// The source at a destination.
#[inline]
pub(crate) fn source_in(behind: &[u8]) -> Option<u16>
    ensures { result ≡ source_in behind.now }
{
    let number = second_at(behind, 1, 3);
    if number == PARKED { None } else { Some(number) }
}
