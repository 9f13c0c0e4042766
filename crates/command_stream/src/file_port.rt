//! A display port over the sink of a file.

ghost use Rattle.tsl_umd5.specs.Packet.{IsPacketText};
ghost use Rattle.tsl_stream.specs.Port.{sink_of};
ghost use Rattle.command_stream.specs.StreamInside.{WasGiven};

use ctl_io::Sink;
use ctl_net::{DisplayPort, Sent};
use tsl_stream::StreamPort;

// A port that writes packets to the sink of a file as a stream. What it was sent says, in front of the packets, which file that
// is: the sink's name stays.
pub(crate) struct FilePort<K> {
    pub(crate) port: StreamPort<K>,
}

impl<K: Sink> DisplayPort for FilePort<K> {
    ghost use Rattle.std.specs.Prelude.{None};

    // No net opened it.
    ghost opening = { λ _. None };

    ghost takes = { IsPacketText };

    ghost was_sent = { λ port sent. WasGiven K.name K.written K.faults port.port sent };

    ghost faults = { λ port. K.faults (sink_of port.port) };

    fn send(&mut self, packet: &[u8]) -> Sent {
        self.port.send(packet)
    }

    fn pause(&mut self) {
        self.port.pause();
    }
}
