//! A display port over a sink, of which any write may fail.
ghost use Rattle.std.specs.Prelude.{◌≡◌, ◌+◌, ◌*◌, ◌≤◌, ℕ, List, [], MatchResult, IfOk};
ghost use Rattle.std.specs.Prelude.{vec_capacity};
ghost use Rattle.tsl_umd5.specs.Layout.{max_packet};
ghost use Rattle.tsl_umd5.specs.Packet.{IsPacketText};

use crate::control::MAX_STREAM;
use crate::half::ends_half;
use crate::write::write_stream;
use ctl_io::{Sink, Write};
use ctl_net::{DisplayPort, Sent};
use std::alloc::Global;

/// Why there is no port, with the sink handed back.
#[derive(Debug)]
pub enum PortRefused<K> {
    NoMemory(K),
}

/// A display port over a sink, which takes just the packets that `read_packet` accepts. Each is written as its text on a
/// stream, however many writes that takes. Where a write fails, a front of the text was taken. The next packet's start
/// breaks that off; where it ends with half of a start or of a pair, the port first writes 00, so that this half begins
/// neither.
pub struct StreamPort<K> {
    sink: K,
    // What is written for one packet.
    text: Vec<u8>,
    // Whether the last byte that the sink took is half of a start or of a pair.
    half: bool,
    ghost room: { 2 * max_packet + 3 ≤ vec_capacity text },
}

impl<K: Sink> StreamPort<K> {
    ghost use Rattle.ctl_io.specs.Sink.{IsUnwritten};
    ghost use Rattle.tsl_stream.specs.Port.{sink_of, HasSent};
    ghost use Rattle.tsl_stream.specs.declared.port.PortRefused.TheVariants.{NoMemory};

    /// A port over this sink. It takes the room for one packet.
    pub fn new(alloc: Global, sink: K) -> Result<StreamPort<K>, PortRefused<K>>
        ensures sink { MatchResult result (λ port. sink_of port ≡ sink)
            (λ refused. refused ≡ NoMemory sink) }
        ensures none { IsUnwritten (K.written sink)
            → IfOk result (λ port. HasSent K.written K.faults port []) }
    {
        match Vec::with_capacity(alloc, MAX_STREAM + 1) {
            Ok(text) => Ok(StreamPort {
                sink,
                text,
                half: false,
            }),
            Err(_) => Err(PortRefused::NoMemory(sink)),
        }
    }

    /// The sink, with all that it was given.
    pub fn into_sink(self) -> K
        ensures { result ≡ sink_of self }
    {
        let StreamPort {
            sink,
            text: _,
            half: _,
        } = self;
        sink
    }
}

impl<K> StreamPort<K> {
    ghost use Rattle.tsl_stream.specs.WritingInside.{sent_text};

    // Makes what is to be written for a packet.
    fn spell(&mut self, packet: &[u8])
        requires { IsPacketText packet.now }
        ensures text { self.new.text.items ≡ sent_text self.old.half packet.now }
        ensures sink { self.new.sink ≡ self.old.sink }
        ensures half { self.new.half ≡ self.old.half }
    {
        self.text.clear();
        if self.half {
            self.text.push_reserved(0);
        }
        write_stream(packet, &mut self.text);
    }
}

impl<K: Sink> DisplayPort for StreamPort<K> {
    ghost use Rattle.std.specs.Prelude.{None};
    ghost use Rattle.ctl_io.specs.Faults.{count_after};
    ghost use Rattle.ctl_net.specs.Port.{send_failed, sent_after};
    ghost use Rattle.tsl_stream.specs.Port.{sink_of, HasSent};

    // No net opened it.
    ghost opening = { λ _. None };

    ghost takes = { IsPacketText };

    ghost was_sent = { HasSent K.written K.faults };

    ghost faults = { λ port. K.faults (sink_of port) };

    /// Sends a packet. Whatever writes fail, what the sink was given has just the packets whose send was done.
    fn send(&mut self, packet: &[u8]) -> Sent
        requires { IsPacketText packet.now }
        ensures sent { (packets : List (List ℕ)) → HasSent K.written K.faults self.old packets
            → HasSent K.written K.faults self.new (sent_after result packet.now packets) }
        ensures name { K.name (sink_of self.new) ≡ K.name (sink_of self.old) }
        ensures count { K.faults (sink_of self.new)
            ≡ count_after (send_failed result) (K.faults (sink_of self.old)) }
    {
        self.spell(packet);
        let mut taken = 0;
        while taken < self.text.len() {
            match self.sink.write(&self.text[taken..]) {
                Write::Took(count) => taken += count,
                Write::Failed => {
                    self.half = ends_half(self.half, &self.text[..taken]);
                    return Sent::Failed;
                }
            }
        }
        self.half = false;
        Sent::Done
    }

    /// Does nothing: the next packet is written behind what the sink took.
    fn pause(&mut self)
        ensures same { self.new ≡ self.old }
    {}
}
