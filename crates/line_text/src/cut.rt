//! Where a text is cut at a byte.

ghost use Rattle.std.specs.Prelude.{MatchOption};
ghost use Rattle.line_text.specs.Cut.{HasNo, IsCut};

/// The byte between the fields of a line.
pub const SPACE: u8 = b' ';

/// The most bytes of a line of a script or of a trace, its LF not counted.
pub const MAX_LINE: usize = 65_536;

/// What stands before the first of this byte in a text, and what behind it; `None` where the text is without it.
pub fn split_at(byte: u8, text: &[u8]) -> Option<(&[u8], &[u8])>
    ensures { MatchOption result
        (HasNo byte text.now)
        (λ parts. IsCut byte text.now parts.0.now parts.1.now) }
{
    for (end, other) in text.iter().enumerate() {
        if *other == byte {
            return Some((&text[..end], &text[end + 1..]));
        }
    }
    None
}
