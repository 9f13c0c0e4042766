//! Numbers in decimal, read and appended.

ghost use Rattle.std.specs.Prelude.{◌≡◌, ◌+◌, ◌≤◌, ◌++◌, length, MatchOption};
ghost use Rattle.std.specs.Prelude.{vec_len, vec_capacity};
ghost use Rattle.std.specs.Fmt.{decimal};
ghost use Rattle.line_text.specs.Decimal.{most_digits, most_read, SpellsDecimal, SpellsNoDecimal};

use crate::bytes::append;
use itoa::Buffer;

/// The most digits of a number: room for so many bytes serves `append_decimal`.
pub const MAX_DIGITS: usize = 20;

/// Appends a number in decimal, without zeros in front. It takes no memory.
pub fn append_decimal(number: u64, out: &mut Vec<u8>)
    requires { vec_len out.old + most_digits ≤ vec_capacity out.old }
    ensures number { out.new.items ≡ out.old.items ++ decimal number }
    ensures most { vec_len out.new ≤ vec_len out.old + most_digits }
    ensures room { vec_capacity out.new ≡ vec_capacity out.old }
{
    let mut buffer = Buffer::new();
    append(buffer.format(number).as_bytes(), out);
}

/// The number that decimal digits spell, `None` where there is none or a byte is no digit. There may be zeros in front.
pub fn read_decimal(digits: &[u8]) -> Option<u64>
    requires { length digits.now ≤ most_read }
    ensures { MatchOption result
        (SpellsNoDecimal digits.now)
        (λ number. SpellsDecimal digits.now number) }
{
    if digits.is_empty() {
        return None;
    }
    let mut number = 0;
    for digit in digits {
        if !digit.is_ascii_digit() {
            return None;
        }
        number = 10 * number + u64::from(*digit - b'0');
    }
    Some(number)
}
