//! Room for bytes that are written before they go anywhere.

ghost use Rattle.std.specs.Prelude.{◌≡◌, ◌+◌, ◌*◌, ◌≤◌, [], ◌++◌, length, IfOk};
ghost use Rattle.std.specs.Bool.{OnTrue};
ghost use Rattle.std.specs.Fmt.{decimal};
ghost use Rattle.hex.specs.Hex.{encode_upper};
ghost use Rattle.line_text.specs.Decimal.{most_digits};

use crate::hexadecimal::write_hex;
use itoa::Buffer;
use std::alloc::{AllocError, Global};
use std::marker::Model;

// The most bytes that are in it at once, 64 KiB.
const MOST: usize = 64 << 10;

/// At most 65,536 bytes in memory that was taken before.
#[derive(Drop)]
pub struct Room {
    // As long as there may be bytes, which are the first so many of it.
    bytes: Vec<u8>,
    used: usize,
}

impl Model for Room {
    ghost use Rattle.std.specs.Prelude.{◌≡◌, List, ℕ, ◌≤◌, length, take};

    ghost Value = { List ℕ };

    ghost view = { λ room. take room.used room.bytes.items };

    ghost invariant = { λ room. (length room.bytes.items ≡ 65536) × (room.used ≤ 65536) };
}

impl Room {
    /// No bytes. Only this takes memory.
    pub fn new(alloc: Global) -> Result<Room, AllocError>
        ensures { IfOk result (λ room. room ≡ []) }
    {
        let bytes = vec![in alloc; 0u8; MOST]?;
        Ok(Room { bytes, used: 0 })
    }

    /// The bytes.
    pub fn bytes(&self) -> &[u8]
        ensures value { result.now ≡ self.now }
        ensures most { length result.now ≤ 65536 }
    {
        &self.bytes[..self.used]
    }

    /// Whether so many bytes more can be put.
    pub fn has_room(&self, count: usize) -> bool
        requires { count ≤ 65536 }
        ensures { OnTrue result (length self.now + count ≤ 65536) }
    {
        self.used <= MOST - count
    }

    /// Puts bytes behind the others.
    #[inline]
    pub fn push_all(&mut self, bytes: &[u8])
        requires { length self.old + length bytes.now ≤ 65536 }
        ensures bytes { self.new ≡ self.old ++ bytes.now }
        ensures len { length self.new ≡ length self.old + length bytes.now }
    {
        let end = self.used + bytes.len();
        copy(bytes, &mut self.bytes[self.used..end]);
        self.used = end;
    }

    /// Puts bytes in hexadecimal behind the others.
    pub fn push_hex(&mut self, bytes: &[u8])
        requires { length self.old + 2 * length bytes.now ≤ 65536 }
        ensures bytes { self.new ≡ self.old ++ encode_upper bytes.now }
        ensures len { length self.new ≡ length self.old + 2 * length bytes.now }
    {
        let end = self.used + 2 * bytes.len();
        write_hex(bytes, &mut self.bytes[self.used..end]);
        self.used = end;
    }

    /// Puts a number in decimal behind the others, without zeros in front.
    pub fn push_decimal(&mut self, number: u64)
        requires { length self.old + most_digits ≤ 65536 }
        ensures number { self.new ≡ self.old ++ decimal number }
        ensures most { length self.new ≤ length self.old + most_digits }
    {
        let mut buffer = Buffer::new();
        self.push_all(buffer.format(number).as_bytes());
    }

    /// No bytes again.
    pub fn clear(&mut self)
        ensures { self.new ≡ [] }
    {
        self.used = 0;
    }
}

// Copies bytes into room of just that length. They are few, so that no call is made for them.
#[inline]
fn copy(bytes: &[u8], room: &mut [u8])
    requires { length room.old ≡ length bytes.now }
    ensures { room.new ≡ bytes.now }
{
    for i in 0..bytes.len() {
        room[i] = bytes[i];
    }
}
