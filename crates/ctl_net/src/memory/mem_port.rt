//! A display port in memory.

ghost use Rattle.std.specs.Prelude.{◌≡◌, ◌<◌, [], IfOk, length, map};
ghost use Rattle.std.specs.List.{concat};
ghost use Rattle.ctl_io.specs.Calls.{uncalled};
ghost use Rattle.ctl_net.specs.MemPort.{send_answer, after_send, opened_to};

use crate::{DisplayPort, Opening, Sent};
use ctl_io::CallCount;
use line_text::append;
use std::alloc::{AllocError, Global};
use std::marker::Model;

/// A display port in memory, with room for so many bytes. It takes each packet that isn't empty.
#[derive(Debug, Drop)]
pub struct MemPort {
    // The opening that made it, if a net opened it.
    opening: Option<Opening>,
    // The packets, one behind the other.
    bytes: Vec<u8>,
    lengths: Vec<usize>,
    calls: CallCount,
}

impl Model for MemPort {
    ghost use Rattle.ctl_net.specs.MemPort.{PortState};
    ghost use Rattle.ctl_net.specs.MemPortInside.{port_state, IsCut};

    ghost Value = { PortState };

    ghost view = { port_state };

    ghost invariant = { IsCut };
}

impl MemPort {
    /// A port with room for `room` bytes of packets, which it takes now. `failing` holds the numbers, from 0, of the
    /// sends that fail.
    pub fn new(alloc: Global, room: usize, failing: Vec<u64>) -> Result<MemPort, AllocError>
        ensures { IfOk result (λ port.
            port ≡ record {
              opening = None;
              packets = [];
              room = room;
              calls = uncalled failing.items;
            }) }
    {
        Ok(MemPort {
            opening: None,
            bytes: Vec::with_capacity(alloc, room)?,
            lengths: Vec::with_capacity(alloc, room)?,
            calls: CallCount::new(failing),
        })
    }

    /// Keeps a packet, which isn't empty, or fails where the send's number is listed or there isn't room for it.
    pub fn take(&mut self, packet: &[u8]) -> Sent
        requires { 0 < length packet.now }
        ensures answer { result ≡ send_answer self.old packet.now }
        ensures after { self.new ≡ after_send self.old packet.now }
    {
        let room = self.bytes.capacity() - self.bytes.len();
        let failed = self.calls.next_fails() || packet.len() > room;
        self.calls.count(failed);
        if failed {
            return Sent::Failed;
        }
        append(packet, &mut self.bytes);
        self.lengths.push_reserved(packet.len());
        Sent::Done
    }

    /// Makes it the port of this opening.
    pub fn open(&mut self, opening: Opening)
        ensures { self.new ≡ opened_to opening self.old }
    {
        self.opening = Some(opening);
    }

    /// The packets that were sent, one behind the other.
    pub fn bytes(&self) -> &[u8]
        ensures { result.now ≡ concat self.now.packets }
    {
        &self.bytes
    }

    /// How long the packets are, in order.
    pub fn lengths(&self) -> &[usize]
        ensures { result.now ≡ map length self.now.packets }
    {
        &self.lengths
    }

    /// How often a send failed. The count stands still at its type's end.
    pub fn faults(&self) -> u64
        ensures { result ≡ self.now.calls.faults }
    {
        self.calls.faults()
    }
}

impl DisplayPort for MemPort {
    ghost use Rattle.ctl_net.specs.Port.{IsSomePacket};

    ghost opening = { λ p. p.opening };

    ghost takes = { IsSomePacket };

    ghost was_sent = { λ p packets. p.packets ≡ packets };

    ghost faults = { λ p. p.calls.faults };

    fn send(&mut self, packet: &[u8]) -> Sent {
        self.take(packet)
    }

    fn pause(&mut self) {}
}
