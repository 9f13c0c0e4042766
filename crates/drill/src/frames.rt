//! The frames of a panel's messages, good and bad.

ghost use Rattle.std.specs.Prelude.{◌≡◌, ◌≤◌, ◌+◌, ◌%◌, ◌++◌, ◌∷◌, [], length, sum};
ghost use Rattle.std.specs.Prelude.{vec_len, vec_capacity};
ghost use Rattle.dle_framing.specs.Frame.{IsData, counted, check_byte, doubled};
ghost use Rattle.swp08_messages.specs.Text.{InRange, text};
ghost use Rattle.drill.specs.Stream.{bad_frame, framed_as, is_bad};

use dle_framing::{DLE, ETX, STX, encode_frame};
use swp08_messages::Message;

// The most bytes of the frame of a message.
pub(crate) const MOST_FRAME: usize = 24;

// Appends the frame of the message of this number, good or bad.
pub(crate) fn send(at: u32, message: &Message, data: &mut Vec<u8>, out: &mut Vec<u8>)
    requires in_range { InRange message.now }
    requires kept { 8 ≤ vec_capacity data.old }
    requires room { vec_len out.old + 24 ≤ vec_capacity out.old }
    ensures bytes { out.new.items ≡ out.old.items ++ framed_as at (text message.now) }
    ensures most { vec_len out.new ≤ vec_len out.old + 24 }
    ensures room { vec_capacity out.new ≡ vec_capacity out.old }
    ensures kept { vec_capacity data.new ≡ vec_capacity data.old }
{
    data.clear();
    message.write(data);
    if is_bad(at) {
        append_bad(data, out);
    } else {
        encode_frame(data, out);
    }
}

// Whether the message of this number is sent as a bad frame.
fn is_bad(at: u32) -> bool
    ensures { result ≡ is_bad at }
{
    at % 100 == 99
}

// Appends the frame of these DATA with a check byte that is one more than the right one.
fn append_bad(bytes: &[u8], out: &mut Vec<u8>)
    requires bytes { IsData bytes.now }
    requires room { vec_len out.old + length (bad_frame bytes.now) ≤ vec_capacity out.old }
    ensures bytes { out.new.items ≡ out.old.items ++ bad_frame bytes.now }
    ensures room { vec_capacity out.new ≡ vec_capacity out.old }
{
    let wrong = wrong_ending(bytes);
    out.push_reserved(DLE);
    out.push_reserved(STX);
    push_doubled(bytes, out);
    push_doubled(&wrong, out);
    out.push_reserved(DLE);
    out.push_reserved(ETX);
}

// The length behind these DATA, and a check byte that is one more than the right one.
fn wrong_ending(bytes: &[u8]) -> [u8; 2]
    requires { IsData bytes.now }
    ensures { counted bytes.now ++ (check_byte (counted bytes.now) + 1) % 256 ∷ []
        ≡ bytes.now ++ result }
{
    let count = bytes.len() as u8;
    let check = byte_sum(bytes).wrapping_add(count).wrapping_neg();
    [count, check.wrapping_add(1)]
}

// The sum of the bytes modulo 256.
fn byte_sum(bytes: &[u8]) -> u8
    ensures { result ≡ sum bytes.now % 256 }
{
    let mut total: u8 = 0;
    for byte in bytes {
        total = total.wrapping_add(*byte);
    }
    total
}

// Appends bytes of a body, each DLE twice.
fn push_doubled(bytes: &[u8], out: &mut Vec<u8>)
    requires { vec_len out.old + length (doubled bytes.now) ≤ vec_capacity out.old }
    ensures doubled { out.new.items ≡ out.old.items ++ doubled bytes.now }
    ensures room { vec_capacity out.new ≡ vec_capacity out.old }
{
    for byte in bytes {
        push_byte(*byte, out);
    }
}

// Appends a byte of a body.
fn push_byte(byte: u8, out: &mut Vec<u8>)
    requires { vec_len out.old + length (doubled (byte ∷ [])) ≤ vec_capacity out.old }
    ensures doubled { out.new.items ≡ out.old.items ++ doubled (byte ∷ []) }
    ensures room { vec_capacity out.new ≡ vec_capacity out.old }
{
    out.push_reserved(byte);
    if byte == DLE {
        out.push_reserved(DLE);
    }
}
