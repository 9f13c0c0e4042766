//! What a display poll tells: its packet and its output line.

ghost use Rattle.std.specs.Prelude.{◌≡◌, ◌≢◌, ◌≤◌, true, [], ◌∷◌, length, IfOk};
ghost use Rattle.std.specs.Bool.{OnTrue, OnFalse};
ghost use Rattle.hex.specs.Hex.{encode_upper};
ghost use Rattle.tsl_umd5.specs.Packet.{IsPacketText};
ghost use Rattle.plant_config.specs.Screens.{has_screen};
ghost use Rattle.plant_core.specs.Displays.{lamp_limit};
ghost use Rattle.display_packets.specs.DisplayPacket.{longest_packet, packet_of, AreLamps};
ghost use Rattle.record_replay.specs.OutputInside.{Puts, screen_head, screen_line};
ghost use Rattle.record_replay.specs.Replay.{show_line};
ghost use Rattle.record_replay.specs.Streamed.{TakesLamps, packets_told};
ghost use Rattle.record_replay.specs.PortInside.{SendsAll, SendsUntil};

use crate::output::Output;
use ctl_net::{DisplayPort, Sent};
use display_packets::display_packet;
use itoa::Buffer;
use panel_session::Drain;
use plant_config::Plant;
use plant_core::Answer;
use std::alloc::{AllocError, Global};
use std::marker::Model;

// The most bytes of a packet: those of its head, and for each of 64 lamps 6 bytes and a name of 12.
const MAX_PACKET: usize = 6 + 64 * (6 + 12);

/// A packet, as whose bytes a contract sees it, in memory that was taken before.
#[derive(Drop)]
pub(crate) struct PacketRoom {
    bytes: Vec<u8>,
}

impl Model for PacketRoom {
    ghost use Rattle.std.specs.Prelude.{ℕ, ◌≤◌, List, length, vec_capacity};
    ghost use Rattle.display_packets.specs.DisplayPacket.{longest_packet};

    ghost Value = { List ℕ };

    ghost view = { λ room. room.bytes.items };

    ghost invariant = { λ room. (length room.bytes.items ≤ longest_packet)
        × (longest_packet ≤ vec_capacity room.bytes) };
}

impl PacketRoom {
    // No packet yet. Only this takes memory.
    pub(crate) fn new(alloc: Global) -> Result<PacketRoom, AllocError> {
        let bytes = Vec::with_capacity(alloc, MAX_PACKET)?;
        Ok(PacketRoom { bytes })
    }

    // It becomes the packet of a screen and these lamps.
    fn write(&mut self, plant: &Plant, screen: u16, lamps: &[Answer])
        requires lamps { AreLamps plant.now lamps.now }
        requires few { length lamps.now ≤ lamp_limit }
        ensures packet { self.new ≡ packet_of plant.now screen lamps.now }
        ensures read { IsPacketText self.new }
    {
        self.bytes.clear();
        display_packet(plant, screen, lamps, &mut self.bytes);
    }

    // The packet's bytes.
    fn bytes(&self) -> &[u8]
        ensures bytes { result.now ≡ self.now }
        ensures most { length result.now ≤ longest_packet }
    {
        self.bytes.as_slice()
    }
}

// Sends the packet of a display poll of a screen that was answered so, if it has one, and puts its output line. Where the send
// fails nothing is put, and the answer is no.
pub(crate) fn tell_show<K: Drain, P: DisplayPort>(
    plant: &Plant,
    screen: u16,
    answers: &[Answer],
    packet: &mut PacketRoom,
    out: &mut Output<'_, K>,
    port: &mut P,
) -> bool
    requires screen { has_screen plant.now screen ≡ true }
    requires lamps { AreLamps plant.now answers.now }
    requires few { length answers.now ≤ lamp_limit }
    requires takes { TakesLamps plant.now P.takes }
    ensures told { OnTrue result
        (Puts K.written K.faults (show_line plant.now screen answers.now) out.old out.new
        × SendsAll P.was_sent P.faults (packets_told plant.now screen answers.now)
        port.old port.new) }
    ensures failed { OnFalse result (Puts K.written K.faults [] out.old out.new
        × SendsUntil P.was_sent P.faults [] port.old port.new
        × (packets_told plant.now screen answers.now ≢ [])) }
{
    match answers {
        [] => put_word(screen, b"quiet", out),
        [Answer::Finished, ..] => put_word(screen, b"finished", out),
        _ => {
            packet.write(plant, screen, answers);
            return tell_packet(screen, packet.bytes(), out, port);
        }
    }
    true
}

// Puts the output line of a display poll that was answered without lamps.
fn put_word<K: Drain>(screen: u16, word: &[u8], out: &mut Output<'_, K>)
    requires { length word.now ≤ 65536 }
    ensures { Puts K.written K.faults (screen_line screen word.now) out.old out.new }
{
    put_head(screen, out);
    out.put(word);
    out.put(b"\n");
}

// Sends a packet, and puts its output line. Where the send fails nothing is put, and the answer is no.
fn tell_packet<K: Drain, P: DisplayPort>(
    screen: u16,
    packet: &[u8],
    out: &mut Output<'_, K>,
    port: &mut P,
) -> bool
    requires few { length packet.now ≤ longest_packet }
    requires takes { P.takes packet.now }
    ensures told { OnTrue result
        (Puts K.written K.faults (screen_line screen (encode_upper packet.now)) out.old out.new
        × SendsAll P.was_sent P.faults (packet.now ∷ []) port.old port.new) }
    ensures failed { OnFalse result (Puts K.written K.faults [] out.old out.new
        × SendsUntil P.was_sent P.faults [] port.old port.new) }
{
    if let Sent::Failed = port.send(packet) {
        return false;
    }
    put_head(screen, out);
    out.put_hex(packet);
    out.put(b"\n");
    true
}

// Puts how the output line of a display poll begins.
fn put_head<K: Drain>(screen: u16, out: &mut Output<'_, K>)
    ensures { Puts K.written K.faults (screen_head screen) out.old out.new }
{
    out.put(b"* ");
    out.put(Buffer::new().format(screen).as_bytes());
    out.put(b" ");
}
