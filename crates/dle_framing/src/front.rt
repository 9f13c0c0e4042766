//! The front of a frame's body: as much of it as a framer keeps.
ghost use Rattle.std.specs.Prelude.{◌≡◌, ◌+◌, ◌%◌, ◌<◌, ◌≤◌, [], ◌∷◌, ◌++◌, length, take, sum};
ghost use Rattle.std.specs.Prelude.{slice_index, IsTrue};
ghost use Rattle.dle_framing.specs.Numbers.{most_kept};
ghost use Rattle.dle_framing.specs.Frame.{doubled};
ghost use Rattle.dle_framing.specs.Items.{is_good};

use crate::body::byte_sum;
use crate::control::{DLE, MAX_BODY, MIN_BODY};
use crate::place::dle_place;
use std::marker::Model;

// One byte more than a good body has: it tells that a body is too long.
const KEPT: usize = MAX_BODY + 1;

// So many bytes of a run are taken one by one, which is faster for few of them.
const NEAR: usize = 16;

// The first bytes of a body, up to 258, and their sum modulo 256. They stand in a row of their own, so no call takes memory.
#[derive(Drop)]
pub(crate) struct Front {
    bytes: [u8; KEPT],
    len: usize,
    total: u8,
}

impl Model for Front {
    ghost use Rattle.std.specs.Prelude.{◌≡◌, ℕ, ◌%◌, ◌≤◌, List, take, sum};
    ghost use Rattle.dle_framing.specs.Numbers.{most_kept};

    ghost Value = { List ℕ };

    ghost view = { λ front. take front.len front.bytes };

    ghost invariant = { λ front. (front.len ≤ most_kept)
        × (front.total ≡ sum (take front.len front.bytes) % 256) };
}

impl Front {
    // Of a body with no bytes so far.
    pub(crate) fn new() -> Front
        ensures { result ≡ [] }
    {
        Front {
            bytes: [0; KEPT],
            len: 0,
            total: 0,
        }
    }

    #[inline(always)]
    pub(crate) fn clear(&mut self)
        ensures { self.new ≡ [] }
    {
        self.len = 0;
        self.total = 0;
    }

    // Goes on by a byte of the body, where it is among the first.
    pub(crate) fn push(&mut self, byte: u8)
        ensures { self.new ≡ take most_kept (self.old ++ byte ∷ []) }
    {
        if self.len < KEPT {
            self.bytes[self.len] = byte;
            self.len += 1;
            self.total = self.total.wrapping_add(byte);
        }
    }

    // Goes on by the bytes of the body up to the first DLE or the text's end, as far as they are among the first, and
    // answers how many bytes these are.
    #[inline(always)]
    pub(crate) fn take_run(&mut self, text: &[u8]) -> usize
        ensures within { result ≤ length text.now }
        ensures single { doubled (take result text.now) ≡ take result text.now }
        ensures found { result < length text.now → slice_index text.now result ≡ DLE }
        ensures front { self.new ≡ take most_kept (self.old ++ take result text.now) }
    {
        let near = text.len().min(NEAR).min(KEPT - self.len);
        let count = self.take_near(&text[..near]);
        if count < near || count == text.len() {
            return count;
        }
        count + self.take_far(&text[count..])
    }

    // The same of few bytes, which are all among the first.
    #[inline(always)]
    fn take_near(&mut self, text: &[u8]) -> usize
        requires { length self.old + length text.now ≤ most_kept }
        ensures within { result ≤ length text.now }
        ensures single { doubled (take result text.now) ≡ take result text.now }
        ensures found { result < length text.now → slice_index text.now result ≡ DLE }
        ensures front { self.new ≡ self.old ++ take result text.now }
    {
        let (count, total) = copy_run(text, &mut self.bytes[self.len..], self.total);
        self.len += count;
        self.total = total;
        count
    }

    // The same of many bytes.
    #[inline(never)]
    fn take_far(&mut self, text: &[u8]) -> usize
        ensures within { result ≤ length text.now }
        ensures single { doubled (take result text.now) ≡ take result text.now }
        ensures found { result < length text.now → slice_index text.now result ≡ DLE }
        ensures front { self.new ≡ take most_kept (self.old ++ take result text.now) }
    {
        let count = dle_place(text);
        self.extend(&text[..count]);
        count
    }

    // Goes on by bytes of the body, as far as they are among the first.
    fn extend(&mut self, bytes: &[u8])
        ensures { self.new ≡ take most_kept (self.old ++ bytes.now) }
    {
        let room = KEPT - self.len;
        self.append(&bytes[..bytes.len().min(room)]);
    }

    // Goes on by bytes that are all among the first.
    fn append(&mut self, bytes: &[u8])
        requires { length self.old + length bytes.now ≤ most_kept }
        ensures { self.new ≡ self.old ++ bytes.now }
    {
        let end = self.len + bytes.len();
        self.bytes[self.len..end].copy_from_slice(bytes);
        self.len = end;
        self.total = self.total.wrapping_add(byte_sum(bytes));
    }

    // Becomes that of a good body.
    #[inline(always)]
    pub(crate) fn restart(&mut self, body: &[u8])
        requires { IsTrue (is_good body.now) }
        ensures { self.new ≡ body.now }
    {
        self.bytes[..body.len()].copy_from_slice(body);
        self.len = body.len();
        self.total = 0;
    }

    // Whether a frame whose body has this front is good.
    #[inline(always)]
    pub(crate) fn is_good(&self) -> bool
        ensures { result ≡ is_good self.now }
    {
        if self.len < MIN_BODY || self.len > MAX_BODY {
            return false;
        }
        let data_len = self.len - 2;
        self.bytes[data_len] as usize == data_len && self.total == 0
    }

    pub(crate) fn as_slice(&self) -> &[u8]
        ensures { result.now ≡ self.now }
    {
        &self.bytes[..self.len]
    }
}

// Copies a text up to its first DLE or its end, and answers how many bytes these are, and what their sum and `total` make
// modulo 256.
#[inline(always)]
fn copy_run(text: &[u8], into: &mut [u8], total: u8) -> (usize, u8)
    requires { length text.now ≤ length into.old }
    ensures within { result.0 ≤ length text.now }
    ensures single { doubled (take result.0 text.now) ≡ take result.0 text.now }
    ensures found { result.0 < length text.now → slice_index text.now result.0 ≡ DLE }
    ensures copied { take result.0 into.new ≡ take result.0 text.now }
    ensures total { result.1 ≡ (total + sum (take result.0 text.now)) % 256 }
{
    let mut sum = total;
    for (place, byte) in text.iter().enumerate() {
        if *byte == DLE {
            return (place, sum);
        }
        into[place] = *byte;
        sum = sum.wrapping_add(*byte);
    }
    (text.len(), sum)
}
