//! The fields of a line, each of which has a space behind it.

ghost use Rattle.std.specs.Prelude.{◌≡◌, ◌≢◌, ◌++◌, ℕ, List, MatchOption, IfSome};
ghost use Rattle.std.specs.Option.{IsSomeAnd};
ghost use Rattle.swp08_messages.specs.declared.message.Message.{Message};
ghost use Rattle.trace_lines.specs.LineInside.{BeginsWithNumber, BeginsWithMessage};

use crate::reading::hexadecimal::{hex_at, message_of};
use crate::reading::number::{digits_at, number_of};
use line_text::SPACE;
use swp08_messages::Message;

// What stands behind this front of a text, `None` where the text has another front.
pub(crate) fn behind<'t>(front: &[u8], text: &'t [u8]) -> Option<&'t [u8]>
    ensures { MatchOption result
        ((rest : List ℕ) → text.now ≢ front.now ++ rest)
        (λ rest. text.now ≡ front.now ++ rest.now) }
{
    text.strip_prefix(front)
}

// The number that a text begins with, and what stands behind the space there.
pub(crate) fn read_number(text: &[u8]) -> Option<(u64, &[u8])>
    ensures found { IfSome result (λ found. BeginsWithNumber text.now found.0 found.1.now) }
    ensures only { (number : ℕ) (behind : List ℕ) → BeginsWithNumber text.now number behind
        → IsSomeAnd result (λ found. (found.0 ≡ number) × (found.1.now ≡ behind)) }
{
    let (end, value) = digits_at(text);
    if end >= text.len() {
        return None;
    }
    if text[end] != SPACE {
        return None;
    }
    let number = number_of(&text[..end], value)?;
    Some((number, &text[end + 1..]))
}

// The message for the plant that a text begins with, and what stands behind the space there.
pub(crate) fn read_message(text: &[u8]) -> Option<(Message, &[u8])>
    ensures found { IfSome result (λ found. BeginsWithMessage text.now found.0 found.1.now) }
    ensures only { (message : Message) (behind : List ℕ)
        → BeginsWithMessage text.now message behind
        → IsSomeAnd result (λ found. (found.0 ≡ message) × (found.1.now ≡ behind)) }
{
    let end = hex_at(text);
    if end >= text.len() {
        return None;
    }
    if text[end] != SPACE {
        return None;
    }
    let message = message_of(&text[..end])?;
    Some((message, &text[end + 1..]))
}
