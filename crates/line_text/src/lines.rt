//! Where the lines of a text end.

ghost use Rattle.std.specs.Prelude.{◌≡◌, ◌+◌, ◌<◌, ◌≤◌, [], ◌∷◌, ◌++◌, length, vec_capacity};
ghost use Rattle.std.specs.Prelude.{OnOk, OnErr};
ghost use Rattle.line_text.specs.Lines.{lines};
ghost use Rattle.line_text.specs.LinesInside.{EndsLine};

use memchr::memchr;
use std::alloc::AllocError;

// Ends a line.
const LF: u8 = b'\n';

/// The first line of a text, without its LF, and what is behind it.
pub fn split_line(text: &[u8]) -> (&[u8], &[u8])
    requires { 0 < length text.now }
    ensures lines { lines text.now ≡ result.0.now ∷ lines result.1.now }
    ensures shorter { length result.1.now < length text.now }
    ensures within { length result.0.now + length result.1.now ≤ length text.now }
    // No more than the LF is left out.
    ensures whole { length text.now ≤ length result.0.now + length result.1.now + 1 }
{
    match memchr(LF, text) {
        Some(end) => (&text[..end], &text[end + 1..]),
        None => (text, &text[text.len()..]),
    }
}

/// Puts the lines of a text behind those of another, where an LF is put first if its last line lacks one. Of an empty text
/// it becomes the other in whole, without a copy.
pub fn join_lines(text: &mut Vec<u8>, more: Vec<u8>) -> Result<(), AllocError>
    ensures lines { OnOk result
        (lines text.new.items ≡ lines text.old.items ++ lines more.items) }
    ensures refused { OnErr result (text.new.items ≡ text.old.items) }
    ensures moved { text.old.items ≡ [] → text.new ≡ more }
{
    if text.is_empty() {
        *text = more;
        return Ok(());
    }
    text.reserve_exact(more.len() + 1)?;
    end_line(text);
    text.extend_from_slice(more.as_slice())
}

// Ends the last line of a text, if it lacks its LF. It takes no memory.
fn end_line(text: &mut Vec<u8>)
    requires some { 0 < length text.old.items }
    requires room { length text.old.items < vec_capacity text.old }
    ensures ends { EndsLine text.old.items text.new.items }
    ensures room { vec_capacity text.new ≡ vec_capacity text.old }
    ensures most { length text.new.items ≤ length text.old.items + 1 }
{
    if text[text.len() - 1] != LF {
        text.push_reserved(LF);
    }
}
