//! A stream in pieces: what is kept of it between them, and the items that end in each.
ghost use Rattle.std.specs.Prelude.{◌≡◌, ℕ, ◌<◌, ◌≤◌, ◌++◌, ◌∷◌, [], List, None, length, take};
ghost use Rattle.std.specs.Prelude.{IsTrue};
ghost use Rattle.std.specs.Borrow.{sem};
ghost use Rattle.std.specs.Option.{option_map};
ghost use Rattle.tsl_umd5.specs.Layout.{max_packet};
ghost use Rattle.tsl_stream.specs.Items.{packet_size};
ghost use Rattle.tsl_stream.specs.Kept.{is_inside};
ghost use Rattle.tsl_stream.specs.StepsInside.{Steps, EndsSo, found_in};

use crate::control::{DLE, STX};
use crate::front::Front;
use crate::item::StreamItem;
use crate::place::dle_place;
use doubled_bytes::State;
use tsl_umd5::TslFault;

/// Gives the items of a stream of bytes, in whatever pieces it comes. It stands for the text that it was fed, of which it
/// keeps the bytes of one packet that isn't whole yet. It has their room and nothing else, so no call of it takes memory.
#[derive(Drop)]
pub struct StreamReader {
    state: State,
    front: Front,
    ghost more: { IsTrue (is_inside state) → length front < packet_size front },
    ghost fits: { IsTrue (is_inside state) → packet_size front ≤ max_packet },
}

impl StreamReader {
    ghost use Rattle.tsl_stream.specs.Feeding.{FeedsStream, shown_packet};
    ghost use Rattle.tsl_stream.specs.Reader.{StandsForStream, GoesOverStream, EndsOverStream};
    ghost use Rattle.tsl_stream.specs.ReaderInside.{PassesOver};

    /// A reader that was fed nothing.
    pub fn new() -> StreamReader
        ensures { StandsForStream result [] }
    {
        StreamReader {
            state: State::Outside,
            front: Front::new(),
        }
    }

    /// Takes the next piece of the stream up to the end of the first item that ends in it. It answers how many bytes it
    /// used, and that item, whose bytes are lent until the reader is used again. The item is None where none ends in the
    /// piece, and then all of it was used. It refuses nothing and takes no memory.
    pub fn feed(&mut self, piece: &[u8]) -> (usize, Option<StreamItem<'_>>)
        ensures* stands { sem 𝓛 (EndsOverStream self.entry (take result.0 piece.now)) }
        ensures within { result.0 ≤ length piece.now }
        ensures progress { 0 < length piece.now → 0 < result.0 }
        ensures feeds { (text : List ℕ) → StandsForStream self.old text
            → FeedsStream text piece.now result.0 (option_map shown_packet result.1) }
    {
        let (used, item) = self.take_item(piece);
        match item {
            Some(item) => (used, Some(self.with_packet(item))),
            None => (used, None),
        }
    }

    // Takes the bytes that `feed` takes: a run of bytes at once, and then the byte behind it. A packet stays in the front.
    fn take_item(&mut self, piece: &[u8]) -> (usize, Option<Result<(), TslFault>>)
        ensures stands { GoesOverStream (take result.0 piece.now) self.old self.new }
        ensures within { result.0 ≤ length piece.now }
        ensures progress { 0 < length piece.now → 0 < result.0 }
        ensures feeds { (text : List ℕ) → StandsForStream self.old text
            → FeedsStream text piece.now result.0
            (option_map (found_in self.new.front) result.1) }
    {
        let mut used = 0;
        loop {
            used += self.take_run(&piece[used..]);
            if used == piece.len() {
                return (used, None);
            }
            let item = self.take(piece[used]);
            used += 1;
            if item.is_some() {
                return (used, item);
            }
        }
    }

    // An item with its packet, which is the front.
    fn with_packet(&self, item: Result<(), TslFault>) -> StreamItem<'_>
        ensures { shown_packet result ≡ found_in self.now.front item }
    {
        match item {
            Ok(()) => StreamItem::Packet(self.front.as_slice()),
            Err(fault) => StreamItem::Bad(fault),
        }
    }

    // Takes bytes in front of the first DLE at once, in a packet as far as it isn't whole with them, and answers how many.
    fn take_run(&mut self, piece: &[u8]) -> usize
        ensures within { result ≤ length piece.now }
        ensures passes { PassesOver (take result piece.now) self.old self.new }
    {
        match self.state {
            State::Outside => dle_place(piece),
            State::Inside => {
                let most = piece.len().min(self.front.missing() - 1);
                let count = dle_place(&piece[..most]);
                self.front.append(&piece[..count]);
                count
            }
            State::OutsideDle | State::InsideDle => 0,
        }
    }

    // Takes a byte, and answers the item that ends with it. The packet is the front.
    fn take(&mut self, byte: u8) -> Option<Result<(), TslFault>>
        ensures { Steps self.old.state self.old.front byte result self.new.state self.new.front }
    {
        match self.state {
            State::Outside => {
                if byte == DLE {
                    self.state = State::OutsideDle;
                }
                None
            }
            State::OutsideDle => {
                self.take_control(byte);
                None
            }
            State::Inside => {
                if byte == DLE {
                    self.state = State::InsideDle;
                    return None;
                }
                self.take_piece(byte)
            }
            State::InsideDle => self.take_inner_control(byte),
        }
    }

    // Takes a byte behind a DLE outside a packet.
    fn take_control(&mut self, byte: u8)
        requires { self.old.state ≡ State.OutsideDle }
        ensures { Steps State.OutsideDle self.old.front byte None self.new.state self.new.front }
    {
        match byte {
            DLE => {}
            STX => self.start(),
            _ => self.state = State::Outside,
        }
    }

    // Takes a byte behind a DLE in a packet.
    fn take_inner_control(&mut self, byte: u8) -> Option<Result<(), TslFault>>
        requires { self.old.state ≡ State.InsideDle }
        ensures { Steps State.InsideDle self.old.front byte result self.new.state self.new.front }
    {
        match byte {
            DLE => self.take_piece(DLE),
            STX => {
                self.start();
                None
            }
            _ => {
                // The byte breaks the packet off, and is used up with the DLE.
                self.state = State::Outside;
                None
            }
        }
    }

    // Takes a byte of a packet, and answers the item that ends with it.
    fn take_piece(&mut self, byte: u8) -> Option<Result<(), TslFault>>
        requires { IsTrue (is_inside self.old.state) }
        ensures front { self.new.front ≡ self.old.front ++ byte ∷ [] }
        ensures ends { EndsSo self.new.front result self.new.state }
    {
        self.front.push(byte);
        let item = self.front.end();
        self.state = if item.is_some() {
            State::Outside
        } else {
            State::Inside
        };
        item
    }

    // Starts a packet.
    fn start(&mut self)
        ensures state { self.new.state ≡ State.Inside }
        ensures front { self.new.front ≡ [] }
    {
        self.front.clear();
        self.state = State::Inside;
    }
}
