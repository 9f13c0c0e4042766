//! Writing a packet at the end of a buffer, display by display.

ghost use Rattle.std.specs.Prelude.{◌≡◌, ◌+◌, ◌-◌, ◌<◌, ◌≤◌, ◌^◌, [], ◌++◌, length, take};
ghost use Rattle.std.specs.Prelude.{drop, vec_len, vec_capacity};
ghost use Rattle.std.specs.List.{AllByRecursion};
ghost use Rattle.tsl_umd5.specs.Layout.{max_brightness, max_packet, packet_head};
ghost use Rattle.tsl_umd5.specs.Packet.{view, word, display_text, message_length, packet_text};
ghost use Rattle.tsl_umd5.specs.Packet.{IsPrintable, IsPacketText, AddsDisplay};

use crate::layout::{COUNT_BYTES, FLAGS, PACKET_HEAD, VERSION};
use crate::shown::Shown;
use line_text::append;

/// Appends the packet of this screen without a display. It needs six spare bytes, and takes no memory.
///
/// SCREEN 65535, by which TSL UMD Protocol V5.0 addresses every screen, is a number like any other here.
#[tactic(auto, unfolding(crate::specs::Packet::packet_text, crate::specs::Packet::messages_text))]
pub fn begin_packet(screen: u16, out: &mut Vec<u8>)
    requires room { vec_len out.old + packet_head ≤ vec_capacity out.old }
    ensures begun { out.new.items ≡ out.old.items ++ packet_text screen [] }

    // `add_display` can follow, at the place where `out` ended.
    ensures packet { IsPacketText (drop (vec_len out.old) out.new.items) }
    ensures len { vec_len out.new ≡ vec_len out.old + packet_head }
    ensures room { vec_capacity out.new ≡ vec_capacity out.old }
{
    let count = (PACKET_HEAD - COUNT_BYTES) as u16;
    append(&count.to_le_bytes(), out);
    append(&[VERSION, FLAGS], out);
    append(&screen.to_le_bytes(), out);
}

/// Puts a display behind the others of the packet that stands from `start` on to the end of `out`. It needs six
/// spare bytes and those of TEXT, and takes no memory. The bytes before `start` stay.
pub fn add_display(start: usize, shown: &Shown<'_>, out: &mut Vec<u8>)
    requires packet { IsPacketText (drop start out.old.items) }
    requires brightness { shown.now.brightness ≤ max_brightness }
    requires text { AllByRecursion IsPrintable shown.now.text.now }
    requires size { vec_len out.old + message_length (view shown.now) ≤ start + max_packet }
    requires room { vec_len out.old + message_length (view shown.now) ≤ vec_capacity out.old }

    // Whichever screen and displays the packet was of, this display stands behind them.
    ensures added { AddsDisplay (view shown.now)
        (drop start out.old.items) (drop start out.new.items) }
    ensures before { take start out.new.items ≡ take start out.old.items }

    // The next display can follow.
    ensures packet { IsPacketText (drop start out.new.items) }
    ensures len { vec_len out.new ≡ vec_len out.old + message_length (view shown.now) }
    ensures room { vec_capacity out.new ≡ vec_capacity out.old }
{
    append_message(shown, out);
    set_count(start, out);
}

// Appends the display message of a display.
#[tactic(auto, unfolding(crate::specs::Packet::message_text))]
fn append_message(shown: &Shown<'_>, out: &mut Vec<u8>)
    requires brightness { shown.now.brightness ≤ max_brightness }
    requires length { length shown.now.text.now < 2 ^ 16 }
    requires room { vec_len out.old + message_length (view shown.now) ≤ vec_capacity out.old }
    ensures text { out.new.items ≡ out.old.items ++ display_text (view shown.now) }
    ensures len { vec_len out.new ≡ vec_len out.old + message_length (view shown.now) }
    ensures room { vec_capacity out.new ≡ vec_capacity out.old }
    ensures index { shown.now.index < 2 ^ 16 }
{
    append(&shown.index.to_le_bytes(), out);
    append(&shown.control().to_le_bytes(), out);
    append(&(shown.text.len() as u16).to_le_bytes(), out);
    append(shown.text, out);
}

// Writes PBC anew, behind which a message has been added.
fn set_count(start: usize, out: &mut Vec<u8>)
    requires within { start + COUNT_BYTES ≤ vec_len out.old }
    requires fits { vec_len out.old - (start + COUNT_BYTES) < 2 ^ 16 }
    ensures set { out.new.items ≡ take start out.old.items
        ++ word (vec_len out.old - (start + COUNT_BYTES))
        ++ drop (start + COUNT_BYTES) out.old.items }
    ensures len { vec_len out.new ≡ vec_len out.old }
    ensures room { vec_capacity out.new ≡ vec_capacity out.old }
{
    let count = (out.len() - (start + COUNT_BYTES)) as u16;
    out[start..start + COUNT_BYTES].copy_from_slice(&count.to_le_bytes());
}
