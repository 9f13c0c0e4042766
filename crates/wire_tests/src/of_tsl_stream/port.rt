//! A port over a sink that takes one byte at a time, and fails at one write.
ghost use Rattle.std.specs.Prelude.{None};
ghost use Rattle.tsl_umd5.specs.Packet.{IsPacketText};

use super::feed_piece;
use ctl_io::{FaultCount, Sink, Write};
use ctl_net::{DisplayPort, Sent};
use std::alloc::Global;
use std::process::Abort;
use std::test::Fail;
use tsl_stream::{PortRefused, StreamItem, StreamPort, StreamReader};
use tsl_umd5::{Lamp, MAX_PACKET, Shown, add_display, begin_packet};

// Takes a byte with each write, and fails at the write of this number.
#[derive(Drop)]
struct ByteSink {
    bytes: Vec<u8>,
    writes: u64,
    failing: u64,
    faults: FaultCount,
}

impl Sink for ByteSink {
    ghost written = { λ _. None };

    ghost faults = { λ sink. sink.faults };

    fn write(&mut self, bytes: &[u8]) -> Write {
        let number = self.writes;
        self.writes = number.saturating_add(1);
        if number == self.failing || self.bytes.push(bytes[0]).is_err() {
            self.faults.raise();
            return Write::Failed;
        }
        Write::Took(1)
    }
}

// A packet with a DLE in it, whose text has 19 bytes.
const CAMERA: Shown<'static> = Shown {
    index: 254,
    right: Lamp::Red,
    middle: Lamp::Off,
    left: Lamp::Off,
    brightness: 3,
    text: b"CAM3",
};

#[test]
fn one_packet_fails_with_each_write(rt: HostRuntime) -> Result<(), Fail> {
    let mut packet = Vec::with_capacity(rt.alloc(), MAX_PACKET)?;
    begin_packet(0, &mut packet);
    add_display(0, &CAMERA, &mut packet);
    for failing in 0..57 {
        sends_but_one(&rt, rt.alloc(), &packet, failing)?;
    }
    Ok(())
}

// Of three packets that are sent, two are read.
fn sends_but_one(rt: &impl Abort, alloc: Global, packet: &[u8], failing: u64) -> Result<(), Fail>
    requires { IsPacketText packet.now }
{
    let sink = ByteSink {
        bytes: Vec::new(alloc),
        writes: 0,
        failing,
        faults: FaultCount::new(),
    };
    let mut port = match StreamPort::new(alloc, sink) {
        Ok(port) => port,
        Err(PortRefused::NoMemory(_sink)) => return Err("no memory".into()),
    };
    let mut done: u64 = 0;
    for _ in 0..3 {
        if port.send(packet) == Sent::Done {
            done = done.saturating_add(1);
        }
    }
    let sink = port.into_sink();
    assert!(rt; done == 2 && sink.faults.count() == 1, "at {failing}");
    let items = [StreamItem::Packet(packet); 2];
    let mut left = items.iter();
    feed_piece(rt, &mut StreamReader::new(), &sink.bytes, &mut left);
    assert!(rt; left.next().is_none(), "at {failing}");
    Ok(())
}
