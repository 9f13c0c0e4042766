//! Hexadecimal in upper case, two digits a byte.

ghost use Rattle.std.specs.Prelude.{◌≡◌, ◌≢◌, ◌*◌, ◌<◌, ◌≤◌, ℕ, List, All, length, take};
ghost use Rattle.std.specs.Prelude.{slice_index_or, Some, IfSome};
ghost use Rattle.std.specs.Bool.{OnTrue, OnFalse};
ghost use Rattle.hex.specs.Hex.{encode_upper};
ghost use Rattle.swp08_messages.specs.declared.message.Message.{Message};
ghost use Rattle.trace_lines.specs.Trace.{IsReplyText};
ghost use Rattle.trace_lines.specs.LineInside.{IsUpperDigit, IsHex, IsMessageText};
ghost use Rattle.trace_lines.specs.LineInside.{hex_value};

use swp08_messages::{Message, MessageKind};

// The most digits of a message.
const MAX_DIGITS: usize = 2 * Message::MAX_LEN;

// The value of each byte as a digit of upper case, 255 where it is none: a look-up serves.
static VALUES: [u8; 256] = *b"\
    \xFF\xFF\xFF\xFF\xFF\xFF\xFF\xFF\xFF\xFF\xFF\xFF\xFF\xFF\xFF\xFF\
    \xFF\xFF\xFF\xFF\xFF\xFF\xFF\xFF\xFF\xFF\xFF\xFF\xFF\xFF\xFF\xFF\
    \xFF\xFF\xFF\xFF\xFF\xFF\xFF\xFF\xFF\xFF\xFF\xFF\xFF\xFF\xFF\xFF\
    \x00\x01\x02\x03\x04\x05\x06\x07\x08\x09\xFF\xFF\xFF\xFF\xFF\xFF\
    \xFF\x0A\x0B\x0C\x0D\x0E\x0F\xFF\xFF\xFF\xFF\xFF\xFF\xFF\xFF\xFF\
    \xFF\xFF\xFF\xFF\xFF\xFF\xFF\xFF\xFF\xFF\xFF\xFF\xFF\xFF\xFF\xFF\
    \xFF\xFF\xFF\xFF\xFF\xFF\xFF\xFF\xFF\xFF\xFF\xFF\xFF\xFF\xFF\xFF\
    \xFF\xFF\xFF\xFF\xFF\xFF\xFF\xFF\xFF\xFF\xFF\xFF\xFF\xFF\xFF\xFF\
    \xFF\xFF\xFF\xFF\xFF\xFF\xFF\xFF\xFF\xFF\xFF\xFF\xFF\xFF\xFF\xFF\
    \xFF\xFF\xFF\xFF\xFF\xFF\xFF\xFF\xFF\xFF\xFF\xFF\xFF\xFF\xFF\xFF\
    \xFF\xFF\xFF\xFF\xFF\xFF\xFF\xFF\xFF\xFF\xFF\xFF\xFF\xFF\xFF\xFF\
    \xFF\xFF\xFF\xFF\xFF\xFF\xFF\xFF\xFF\xFF\xFF\xFF\xFF\xFF\xFF\xFF\
    \xFF\xFF\xFF\xFF\xFF\xFF\xFF\xFF\xFF\xFF\xFF\xFF\xFF\xFF\xFF\xFF\
    \xFF\xFF\xFF\xFF\xFF\xFF\xFF\xFF\xFF\xFF\xFF\xFF\xFF\xFF\xFF\xFF\
    \xFF\xFF\xFF\xFF\xFF\xFF\xFF\xFF\xFF\xFF\xFF\xFF\xFF\xFF\xFF\xFF\
    \xFF\xFF\xFF\xFF\xFF\xFF\xFF\xFF\xFF\xFF\xFF\xFF\xFF\xFF\xFF\xFF";

// Whether a text is how a trace tells the reply to a request.
pub(crate) fn is_reply(text: &[u8]) -> bool
    ensures yes { OnTrue result (IsReplyText text.now) }
    ensures no { OnFalse result (IsReplyText text.now → ⊥) }
{
    if is_word(b"-", text) {
        return true;
    }
    if is_word(b"finished", text) {
        return true;
    }
    if text.is_empty() {
        return false;
    }
    is_hex(text)
}

// Whether a text is this word.
fn is_word(word: &[u8], text: &[u8]) -> bool
    ensures yes { OnTrue result (text.now ≡ word.now) }
    ensures no { OnFalse result (text.now ≢ word.now) }
{
    text == word
}

// How many digits a text has in front.
pub(crate) fn hex_at(text: &[u8]) -> usize
    ensures digits { All IsUpperDigit (take result text.now) }
    ensures within { result ≤ length text.now }
    ensures other { result < length text.now
        → IsUpperDigit (slice_index_or text.now result 0) → ⊥ }
{
    for end in 0..text.len() {
        if value_of(text[end]) >= 16 {
            return end;
        }
    }
    text.len()
}

// The message for the plant whose canonical DATA digits are in hexadecimal.
pub(crate) fn message_of(digits: &[u8]) -> Option<Message>
    requires { All IsUpperDigit digits.now }
    ensures found { IfSome result (IsMessageText digits.now) }
    ensures only { (message : Message) → IsMessageText digits.now message
        → result ≡ Some message }
{
    if digits.len() > MAX_DIGITS {
        return None;
    }
    if digits.len() % 2 == 1 {
        return None;
    }
    let mut room = [0u8; Message::MAX_LEN];
    message_within(digits, &mut room[..digits.len() / 2])
}

// The same of hexadecimal, with room for just its bytes.
fn message_within(digits: &[u8], room: &mut [u8]) -> Option<Message>
    requires hex { IsHex digits.now }
    requires room { length digits.now ≡ 2 * length room.old }
    ensures found { IfSome result (IsMessageText digits.now) }
    ensures only { (message : Message) → IsMessageText digits.now message
        → result ≡ Some message }
{
    decode(digits, room);
    let Some(message) = Message::read_text(room) else {
        return None;
    };
    match message.kind() {
        MessageKind::Plant => Some(message),
        _ => None,
    }
}

// Writes the bytes of digits into room of just that length.
fn decode(digits: &[u8], room: &mut [u8])
    requires hex { IsHex digits.now }
    requires room { length digits.now ≡ 2 * length room.old }
    ensures bytes { digits.now ≡ encode_upper room.new }
    ensures only { (bytes : List ℕ) → All (λ byte. byte < 256) bytes
        → digits.now ≡ encode_upper bytes → room.new ≡ bytes }
{
    for i in 0..room.len() {
        let high = value_of(digits[2 * i]);
        let low = value_of(digits[2 * i + 1]);
        room[i] = 16 * high + low;
    }
}

// Whether a text is hexadecimal, of some bytes or none.
fn is_hex(text: &[u8]) -> bool
    ensures yes { OnTrue result (IsHex text.now) }
    ensures no { OnFalse result (IsHex text.now → ⊥) }
{
    if text.len() % 2 == 1 {
        return false;
    }
    // A byte that is no digit shows in here at the end: so the loop has no other end.
    let mut all = 0;
    for byte in text {
        all |= value_of(*byte);
    }
    all < 16
}

// The value of a digit of upper case, 255 where a byte is none.
#[inline]
fn value_of(byte: u8) -> u8
    ensures { result ≡ hex_value byte }
{
    VALUES[byte as usize]
}
