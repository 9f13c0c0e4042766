//! The packet that tells the displays of a screen what a display poll was answered.

ghost use Rattle.std.specs.Prelude.{◌≡◌, ℕ, ◌+◌, ◌<◌, ◌≤◌, ◌++◌, Option, IfSome, length};
ghost use Rattle.std.specs.Prelude.{take, drop, vec_len, vec_capacity};
ghost use Rattle.std.specs.List.{AllByRecursion};
ghost use Rattle.tsl_umd5.specs.Layout.{max_brightness, max_packet};
ghost use Rattle.tsl_umd5.specs.Packet.{view, IsPacketText, IsPrintable};
ghost use Rattle.plant_config.specs.Plant.{sources_of};
ghost use Rattle.plant_core.specs.Displays.{lamp_limit};
ghost use Rattle.display_packets.specs.DisplayPacket.{longest_packet, umd_text, lamp_if};
ghost use Rattle.display_packets.specs.DisplayPacket.{text_lamp, lamp_shown, packet_of};
ghost use Rattle.display_packets.specs.DisplayPacket.{IsLamp, MayShow, AreLamps};
ghost use Rattle.display_packets.specs.DisplayPacketInside.{AddsShown};

use change_boards::Value;
use plant_config::{DisplayId, Plant, SourceId};
use plant_core::Answer;
use tsl_umd5::{Lamp, Shown, add_display, begin_packet};

/// Appends the one packet of the TSL UMD Protocol V5.0 for a screen, 0 to 65534, with a display message for each lamp among
/// these answers, in their order. There are at most 64 answers. It needs 1,158 spare bytes, and takes no memory.
pub fn display_packet(plant: &Plant, screen: u16, lamps: &[Answer], out: &mut Vec<u8>)
    requires lamps { AreLamps plant.now lamps.now }
    requires few { length lamps.now ≤ lamp_limit }
    requires room { vec_len out.old + longest_packet ≤ vec_capacity out.old }
    ensures packet { out.new.items ≡ out.old.items ++ packet_of plant.now screen lamps.now }

    // It is one that readers of this profile take.
    ensures taken { IsPacketText (packet_of plant.now screen lamps.now) }
    ensures most { length (packet_of plant.now screen lamps.now) ≤ longest_packet }
    ensures room { vec_capacity out.new ≡ vec_capacity out.old }
{
    let start = out.len();
    begin_packet(screen, out);
    for answer in lamps {
        add_shown(plant, start, answer, out);
    }
}

// Puts what an answer shows behind the others of the packet that stands from `start` on, nothing where it isn't a lamp.
fn add_shown(plant: &Plant, start: usize, answer: &Answer, out: &mut Vec<u8>)
    requires may { MayShow plant.now answer.now }
    requires packet { IsPacketText (drop start out.old.items) }
    requires size { vec_len out.old + 18 ≤ start + max_packet }
    requires room { vec_len out.old + 18 ≤ vec_capacity out.old }
    ensures added { AddsShown plant.now answer.now
        (drop start out.old.items) (drop start out.new.items) }
    ensures before { take start out.new.items ≡ take start out.old.items }
    ensures packet { IsPacketText (drop start out.new.items) }
    ensures most { vec_len out.new ≤ vec_len out.old + 18 }
    ensures room { vec_capacity out.new ≡ vec_capacity out.old }
{
    if let Answer::Lamp { display, value } = *answer {
        add_display(start, &shown_of(plant, display, value), out);
    }
}

// What a display shows by this value.
fn shown_of(plant: &Plant, display: DisplayId, value: Value) -> Shown<'_>
    requires { IsLamp plant.now display value }
    ensures shown { view result ≡ lamp_shown plant.now display value }
    ensures brightness { result.brightness ≤ max_brightness }
    ensures text { AllByRecursion IsPrintable result.text.now }
    ensures most { length result.text.now ≤ 12 }
{
    Shown {
        index: plant.displays()[display.get() as usize].index,
        right: lamp_if(value.air, Lamp::Red),
        middle: text_lamp(value.air, value.preview),
        left: lamp_if(value.preview, Lamp::Green),
        brightness: plant.server().brightness,
        text: text_of(plant, value.source),
    }
}

// A lamp of this colour where it is on.
fn lamp_if(on: bool, colour: Lamp) -> Lamp
    ensures { result ≡ lamp_if on colour }
{
    if on { colour } else { Lamp::Off }
}

// The lamp of the text.
fn text_lamp(air: bool, preview: bool) -> Lamp
    ensures { result ≡ text_lamp air preview }
{
    match (air, preview) {
        (true, true) => Lamp::Amber,
        (true, false) => Lamp::Red,
        (false, true) => Lamp::Green,
        (false, false) => Lamp::Off,
    }
}

// The name of a source, and nothing where there is none.
fn text_of(plant: &Plant, source: Option<SourceId>) -> &[u8]
    requires { IfSome source (λ source. source < sources_of plant.now) }
    ensures text { result.now ≡ umd_text plant.now source }
    ensures printable { AllByRecursion IsPrintable result.now }
    ensures most { length result.now ≤ 12 }
{
    match source {
        Some(source) => plant.source_name(source),
        None => b"",
    }
}
