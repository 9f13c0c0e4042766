//! The front of a packet: the bytes of it that have come.
ghost use Rattle.std.specs.Prelude.{◌≡◌, ◌+◌, ◌<◌, ◌≤◌, [], ◌∷◌, ◌++◌, length, IfSome, IfNone};
ghost use Rattle.tsl_umd5.specs.Layout.{max_packet};
ghost use Rattle.tsl_stream.specs.Items.{packet_size};
ghost use Rattle.tsl_stream.specs.Kept.{IsOpen};
ghost use Rattle.tsl_stream.specs.StepsInside.{IsReached, EndsAs, found_in};

use std::marker::Model;
use tsl_umd5::{MAX_PACKET, TslFault, read_packet};

// The bytes of PBC, which counts those behind it.
const COUNT_BYTES: usize = 2;

// The bytes of a packet that have come. They stand in a row of their own, so no call takes memory.
#[derive(Drop)]
pub(crate) struct Front {
    bytes: [u8; MAX_PACKET],
    len: usize,
}

impl Model for Front {
    ghost use Rattle.std.specs.Prelude.{ℕ, ◌≤◌, List, take};
    ghost use Rattle.tsl_umd5.specs.Layout.{max_packet};

    ghost Value = { List ℕ };

    ghost view = { λ front. take front.len front.bytes };

    ghost invariant = { λ front. front.len ≤ max_packet };
}

impl Front {
    // Of a packet of which nothing has come.
    pub(crate) fn new() -> Front
        ensures { result ≡ [] }
    {
        Front {
            bytes: [0; MAX_PACKET],
            len: 0,
        }
    }

    pub(crate) fn clear(&mut self)
        ensures { self.new ≡ [] }
    {
        self.len = 0;
    }

    // Goes on by a byte.
    pub(crate) fn push(&mut self, byte: u8)
        requires { length self.old < max_packet }
        ensures { self.new ≡ self.old ++ byte ∷ [] }
    {
        self.bytes[self.len] = byte;
        self.len += 1;
    }

    // Goes on by bytes.
    pub(crate) fn append(&mut self, bytes: &[u8])
        requires { length self.old + length bytes.now ≤ max_packet }
        ensures { self.new ≡ self.old ++ bytes.now }
    {
        let end = self.len + bytes.len();
        self.bytes[self.len..end].copy_from_slice(bytes);
        self.len = end;
    }

    // How many bytes the packet wants, and PBC alone where that hasn't come.
    pub(crate) fn wanted(&self) -> usize
        ensures { result ≡ packet_size self.now }
    {
        match self.as_slice() {
            [low, high, ..] => usize::from(u16::from_le_bytes([*low, *high])) + COUNT_BYTES,
            _ => COUNT_BYTES,
        }
    }

    // How many bytes the packet wants behind these.
    pub(crate) fn missing(&self) -> usize
        requires { length self.now < packet_size self.now }
        ensures { result + length self.now ≡ packet_size self.now }
    {
        self.wanted() - self.len
    }

    // What the packet has come to: None where more bytes are wanted, Ok where it is whole, or why it is bad.
    pub(crate) fn end(&self) -> Option<Result<(), TslFault>>
        requires { IsReached self.now }
        ensures more { IfNone result (IsOpen self.now) }
        ensures ends { IfSome result (λ item. EndsAs self.now (found_in self.now item)) }
    {
        let wanted = self.wanted();
        if wanted > MAX_PACKET {
            return Some(Err(TslFault::TooLong(wanted)));
        }
        if self.len < wanted {
            return None;
        }
        match read_packet(self.as_slice()) {
            Ok(_) => Some(Ok(())),
            Err(fault) => Some(Err(fault)),
        }
    }

    pub(crate) fn as_slice(&self) -> &[u8]
        ensures { result.now ≡ self.now }
    {
        &self.bytes[..self.len]
    }
}
