//! The bytes of a turn, in room that was taken before.

ghost use Rattle.std.specs.Prelude.{◌≡◌, ◌<◌, ◌≤◌, ◌*◌, ◌/◌, ◌==◌, ℕ, List, [], length, take};
ghost use Rattle.std.specs.Prelude.{not, filter, vec_len, vec_capacity, IfOk};
ghost use Rattle.std.specs.Bool.{OnTrue, OnFalse};
ghost use Rattle.hex.specs.Hex.{decode_of};
ghost use Rattle.swp08_messages.specs.Text.{InRange};
ghost use Rattle.record_replay.specs.Take.{message_frame};
ghost use Rattle.record_replay.specs.Script.{HexSpells, longest_line, space};
ghost use Rattle.record_replay.specs.LineInside.{IsNoHex};
ghost use Rattle.record_replay.specs.PairsInside.{IsNoPair, most_pairs};

use crate::pairs::{NO_BYTE, byte_of, read_pairs};
use dle_framing::{MAX_FRAME, encode_frame};
use line_text::{MAX_LINE, SPACE};
use std::alloc::{AllocError, Global};
use std::marker::Model;
use swp08_messages::Message;

// The most bytes that a line spells.
const MAX_BYTES: usize = MAX_LINE / 2;

/// The bytes that were spelled last, as which a contract sees them. Only `new` takes memory: there is room for the
/// hexadecimal of the longest line and for a frame.
#[derive(Drop)]
pub(crate) struct Digits {
    // The text without its spaces, or the DATA of a message.
    digits: Vec<u8>,
    frame: Vec<u8>,
    // The bytes are the first so many of it.
    room: Vec<u8>,
    used: usize,
}

impl Model for Digits {
    ghost use Rattle.std.specs.Prelude.{◌≡◌, ◌≤◌, ◌*◌, ℕ, List, length, take, vec_capacity};
    ghost use Rattle.dle_framing.specs.Numbers.{most_frame};
    ghost use Rattle.record_replay.specs.Script.{longest_line};

    ghost Value = { List ℕ };

    ghost view = { λ digits. take digits.used digits.room.items };

    ghost invariant = { λ digits.
        (longest_line ≤ vec_capacity digits.digits)
        × (most_frame ≤ vec_capacity digits.frame)
        × (2 * length digits.room.items ≡ longest_line)
        × (digits.used ≤ length digits.room.items) };
}

impl Digits {
    // No bytes.
    pub(crate) fn new(alloc: Global) -> Result<Digits, AllocError>
        ensures { IfOk result (λ digits. digits ≡ []) }
    {
        let digits = Vec::with_capacity(alloc, MAX_LINE)?;
        let frame = Vec::with_capacity(alloc, MAX_FRAME)?;
        let room = vec![in alloc; 0u8; MAX_BYTES]?;
        Ok(Digits {
            digits,
            frame,
            room,
            used: 0,
        })
    }

    // The bytes.
    pub(crate) fn bytes(&self) -> &[u8]
        ensures { result.now ≡ self.now }
    {
        &self.room[..self.used]
    }

    // No bytes again.
    pub(crate) fn clear(&mut self)
        ensures { self.new ≡ [] }
    {
        self.used = 0;
    }

    // Takes the bytes of a message's frame.
    #[tactic(auto, using(crate::proofs::MessageFrames::frame_within))]
    pub(crate) fn put_frame(&mut self, message: &Message)
        requires { InRange message.now }
        ensures { self.new ≡ message_frame message.now }
    {
        self.digits.clear();
        message.write(&mut self.digits);
        self.frame.clear();
        encode_frame(self.digits.as_slice(), &mut self.frame);
        self.used = self.frame.len();
        fill(self.frame.as_slice(), self.room.as_mut_slice());
    }

    // Takes the bytes that a text in hexadecimal spells, and answers whether it spells some or none.
    pub(crate) fn read(&mut self, hex: &[u8]) -> bool
        requires { length hex.now ≤ longest_line }
        ensures spelled { OnTrue result (HexSpells hex.now self.new) }
        ensures refused { OnFalse result ((bytes : List ℕ) → HexSpells hex.now bytes → ⊥) }
    {
        if hex.len() > 2 && hex[2] == SPACE {
            return self.read_spaced(hex);
        }
        // Most other texts have no space, and are decoded where they stand.
        self.used = hex.len() / 2;
        if decode(hex, self.room.as_mut_slice()) {
            return true;
        }
        self.read_spaced(hex)
    }

    // Takes the bytes of the pairs of digits at the front of a text, at most so many, and answers how many these are.
    #[inline(always)]
    pub(crate) fn read_pairs(&mut self, text: &[u8]) -> usize
        requires { 2 * most_pairs ≤ length text.now }
        ensures read { decode_of (take (2 * result) text.now) ≡ Ok self.new }
        ensures other { result < most_pairs → IsNoPair result text.now }
        ensures most { result ≤ most_pairs }
    {
        let count = read_pairs(text, self.room.as_mut_slice());
        self.used = count;
        count
    }

    // `read` by the text without its spaces. Out of line, so that `read` is short.
    #[inline(never)]
    fn read_spaced(&mut self, hex: &[u8]) -> bool
        requires { length hex.now ≤ longest_line }
        ensures spelled { OnTrue result (HexSpells hex.now self.new) }
        ensures refused { OnFalse result ((bytes : List ℕ) → HexSpells hex.now bytes → ⊥) }
    {
        drop_spaces(hex, &mut self.digits);
        self.used = self.digits.len() / 2;
        decode(self.digits.as_slice(), self.room.as_mut_slice())
    }
}

// Puts a text without its spaces in the place of the digits. It takes no memory.
fn drop_spaces(text: &[u8], digits: &mut Vec<u8>)
    requires { length text.now ≤ vec_capacity digits.old }
    ensures items { digits.new.items ≡ filter (λ byte. not (byte == space)) text.now }
    ensures shorter { vec_len digits.new ≤ length text.now }
    ensures capacity { vec_capacity digits.new ≡ vec_capacity digits.old }
{
    digits.clear();
    for byte in text {
        if *byte != SPACE {
            digits.push_reserved(*byte);
        }
    }
}

// Puts bytes in front of the room.
fn fill(bytes: &[u8], room: &mut [u8])
    requires { length bytes.now ≤ length room.old }
    ensures { take (length bytes.now) room.new ≡ bytes.now }
{
    room[..bytes.len()].copy_from_slice(bytes);
}

// Puts the bytes of digits in front of the room, and answers whether they are the digits of bytes.
fn decode(digits: &[u8], room: &mut [u8]) -> bool
    requires { length digits.now ≤ 2 * length room.old }
    ensures decoded { OnTrue result
        (decode_of digits.now ≡ Ok (take (length digits.now / 2) room.new)) }
    ensures refused { OnFalse result (IsNoHex digits.now) }
{
    if digits.len() % 2 == 1 {
        return false;
    }
    // A byte that isn't one of two digits shows in here at the end: so the loop has no other end.
    let mut all = 0;
    for i in 0..digits.len() / 2 {
        let byte = byte_of(digits[2 * i], digits[2 * i + 1]);
        all |= byte;
        room[i] = (byte % 256) as u8;
    }
    if all >= NO_BYTE {
        return false;
    }
    true
}
