//! The notices of 64 destinations in a state's text, gathered in words.

ghost use Rattle.std.specs.Prelude.{◌+◌, ◌≤◌, length};
ghost use Rattle.plant_core.specs.MarksInside.{HasMarks, HasBytes, HasLowest};

use crate::read_fields::byte_at;
use change_boards::Sort;

/// Which of 64 destinations, whose bytes begin at a place, have this notice: a bit for each.
pub(crate) fn word_in(bytes: &[u8], place: usize, sort: Sort) -> u64
    requires { place + 64 ≤ length bytes.now }
    ensures { HasMarks bytes.now place sort 64 result }
{
    u64::from_le_bytes([
        eight_in(bytes, place, sort),
        eight_in(bytes, place + 8, sort),
        eight_in(bytes, place + 16, sort),
        eight_in(bytes, place + 24, sort),
        eight_in(bytes, place + 32, sort),
        eight_in(bytes, place + 40, sort),
        eight_in(bytes, place + 48, sort),
        eight_in(bytes, place + 56, sort),
    ])
}

// Which of eight have it.
fn eight_in(bytes: &[u8], place: usize, sort: Sort) -> u8
    requires { place + 8 ≤ length bytes.now }
    ensures { HasMarks bytes.now place sort 8 result }
{
    let eight = eight_at(bytes, place);
    match sort {
        Sort::Source => lowest_bits(eight),
        Sort::Protect => lowest_bits(eight >> 1),
    }
}

// The number of eight bytes.
fn eight_at(bytes: &[u8], place: usize) -> u64
    requires { place + 8 ≤ length bytes.now }
    ensures { HasBytes bytes.now place result }
{
    u64::from_le_bytes([
        byte_at(bytes, place),
        byte_at(bytes, place + 1),
        byte_at(bytes, place + 2),
        byte_at(bytes, place + 3),
        byte_at(bytes, place + 4),
        byte_at(bytes, place + 5),
        byte_at(bytes, place + 6),
        byte_at(bytes, place + 7),
    ])
}

// The lowest bits of eight bytes. The product brings each to its place in the highest byte.
fn lowest_bits(eight: u64) -> u8
    ensures { HasLowest eight result }
{
    let lowest = eight & 0x0101_0101_0101_0101;
    (lowest.wrapping_mul(0x0102_0408_1020_4080) >> 56) as u8
}
