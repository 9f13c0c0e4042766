//! The numbers in a line.

ghost use Rattle.std.specs.Prelude.{◌≡◌, ◌<◌, ◌≤◌, ℕ, All, length, take, slice_index_or};
ghost use Rattle.std.specs.Prelude.{Some, IfSome};
ghost use Rattle.std.specs.Bool.{OnTrue, OnFalse};
ghost use Rattle.std.specs.Str.Parse.{digits_value};
ghost use Rattle.line_text.specs.Decimal.{IsDigit, most_read};
ghost use Rattle.trace_lines.specs.LineInside.{IsNumber, HasSpareZero};

// The most digits of a number.
const MAX_DIGITS: usize = 19;

// The greatest number, 2^62.
const MAX_NUMBER: u64 = 1 << 62;

// How many decimal digits a text has in front, at most those of a number, and what they make.
pub(crate) fn digits_at(text: &[u8]) -> (usize, u64)
    ensures digits { All IsDigit (take result.0 text.now) }
    ensures value { result.1 ≡ digits_value 10 (take result.0 text.now) }
    ensures within { result.0 ≤ length text.now }
    ensures other { result.0 < most_read → result.0 < length text.now
        → IsDigit (slice_index_or text.now result.0 0) → ⊥ }
{
    let most = if text.len() < MAX_DIGITS {
        text.len()
    } else {
        MAX_DIGITS
    };
    let mut value = 0;
    for end in 0..most {
        let digit = text[end];
        if !digit.is_ascii_digit() {
            return (end, value);
        }
        value = 10 * value + u64::from(digit - b'0');
    }
    (most, value)
}

// The number that digits of this value spell in the one way that a trace has: without zeros in front.
pub(crate) fn number_of(text: &[u8], value: u64) -> Option<u64>
    requires digits { All IsDigit text.now }
    requires value { value ≡ digits_value 10 text.now }
    ensures found { IfSome result (λ number. IsNumber text.now number) }
    ensures only { (number : ℕ) → IsNumber text.now number → result ≡ Some number }
{
    if text.is_empty() {
        return None;
    }
    if has_spare_zero(text) {
        return None;
    }
    if value <= MAX_NUMBER {
        Some(value)
    } else {
        None
    }
}

// Whether more digits are behind a zero, which the number would do without.
fn has_spare_zero(text: &[u8]) -> bool
    ensures yes { OnTrue result (HasSpareZero text.now) }
    ensures no { OnFalse result (HasSpareZero text.now → ⊥) }
{
    if text.len() < 2 {
        return false;
    }
    text[0] == b'0'
}
