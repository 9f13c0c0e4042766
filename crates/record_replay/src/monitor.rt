//! What a recorded stream of display packets tells, in lines for a person.

ghost use Rattle.std.specs.Prelude.{◌≡◌, ◌≤◌, ◌<◌, ◌++◌, length, take, OnOk, IsErrOf, IfSome};
ghost use Rattle.std.specs.Fmt.{decimal};
ghost use Rattle.ctl_io.specs.Faults.{count_after};
ghost use Rattle.ctl_io.specs.Sink.{appended, AppendsPart};
ghost use Rattle.tsl_umd5.specs.Layout.{max_packet};
ghost use Rattle.tsl_umd5.specs.Packet.{view, messages_text};
ghost use Rattle.tsl_umd5.specs.Reading.{packet_reading};
ghost use Rattle.tsl_stream.specs.Feeding.{shown_packet};
ghost use Rattle.record_replay.specs.declared.monitor.MonitorFault.TheVariants.{NoMemory};
ghost use Rattle.record_replay.specs.Replay.{hex_or_dash};
ghost use Rattle.record_replay.specs.OutputInside.{Puts};
ghost use Rattle.record_replay.specs.Monitor.{monitor_text, monitor_failed, item_lines, bad_line};
ghost use Rattle.record_replay.specs.Monitor.{read_lines, screen_told, displays_lines};
ghost use Rattle.record_replay.specs.Monitor.{display_line, index_text, lamps_text, shown_text};
ghost use Rattle.record_replay.specs.MonitorInside.{TellsOn, count_in};

use crate::output::Output;
use ctl_io::Sink;
use itoa::Buffer;
use line_text::Room;
use panel_session::Drain;
use std::alloc::{AllocError, Global};
use tsl_stream::{StreamItem, StreamReader};
use tsl_umd5::{Packet, Shown, TslFault, read_packet};

/// Why a stream wasn't told to its end.
#[derive(Clone, Copy, Debug, PartialEq, Eq)]
pub enum MonitorFault {
    NoMemory,
    /// A write of the output failed.
    OutputFault,
}

impl From<AllocError> for MonitorFault {
    ghost from_gives = { λ _ fault. fault ≡ NoMemory };

    fn from(_: AllocError) -> Self {
        MonitorFault::NoMemory
    }
}

/// Writes what a recorded stream of display packets tells, in lines: for each packet its screen and its displays, and why
/// what a start announced is no packet. All memory is taken before the first line is written.
pub fn monitor_stream<K: Sink>(
    alloc: Global,
    stream: &[u8],
    out: &mut K,
) -> Result<(), MonitorFault>
    ensures ok { OnOk result
        (K.written out.new ≡ appended (K.written out.old) (monitor_text stream.now)) }
    ensures output_fault { IsErrOf result MonitorFault.OutputFault
        → AppendsPart (monitor_text stream.now) (K.written out.old) (K.written out.new) }
    ensures no_memory { IsErrOf result MonitorFault.NoMemory
        → K.written out.new ≡ K.written out.old }
    // The output's count of faults rose by one at a fault of the output, and else stayed.
    ensures count { K.faults out.new ≡ count_after (monitor_failed result) (K.faults out.old) }
{
    let mut room = Room::new(alloc)?;
    let mut output = Output::new(&mut room, out);
    put_stream(stream, &mut output);
    if output.finish() {
        Ok(())
    } else {
        Err(MonitorFault::OutputFault)
    }
}

// Puts the lines of a stream.
fn put_stream<K: Drain>(stream: &[u8], out: &mut Output<'_, K>)
    ensures { Puts K.written K.faults (monitor_text stream.now) out.old out.new }
{
    let mut reader = StreamReader::new();
    let mut used = 0;
    while used < stream.len() {
        used += put_next(&mut reader, &stream[used..], out);
    }
}

// Puts the lines of the first item that ends in a piece, and answers how many bytes were used.
fn put_next<K: Drain>(reader: &mut StreamReader, piece: &[u8], out: &mut Output<'_, K>) -> usize
    ensures within { result ≤ length piece.now }
    ensures progress { 0 < length piece.now → 0 < result }
    ensures tells { TellsOn (take result piece.now) reader.old reader.new
        (λ lines. Puts K.written K.faults lines out.old out.new) }
{
    let (used, item) = reader.feed(piece);
    if let Some(item) = item {
        put_item(item, out);
    }
    used
}

// Puts the lines of an item.
fn put_item<K: Drain>(item: StreamItem<'_>, out: &mut Output<'_, K>)
    ensures { Puts K.written K.faults (item_lines (shown_packet item.entry)) out.old out.new }
{
    match item {
        StreamItem::Packet(bytes) => put_packet(bytes, out),
        StreamItem::Bad(fault) => put_bad(fault, out),
    }
}

// Puts the line of bytes that are no packet.
fn put_bad<K: Drain>(fault: TslFault, out: &mut Output<'_, K>)
    ensures { Puts K.written K.faults (bad_line fault) out.old out.new }
{
    out.put(b"bad ");
    out.put(fault.kind_name().as_bytes());
    out.put(b"\n");
}

// Puts the lines of bytes, which are a packet if they are an item.
fn put_packet<K: Drain>(bytes: &[u8], out: &mut Output<'_, K>)
    ensures { Puts K.written K.faults (read_lines (packet_reading bytes.now)) out.old out.new }
{
    match read_packet(bytes) {
        Ok(mut packet) => {
            put_screen(packet.screen(), count_displays(bytes), out);
            put_displays(&mut packet, out);
        }
        Err(fault) => put_bad(fault, out),
    }
}

// How many displays are told by bytes, none if they are no packet.
fn count_displays(bytes: &[u8]) -> usize
    ensures { result ≡ count_in (packet_reading bytes.now) }
{
    let Ok(mut packet) = read_packet(bytes) else {
        return 0;
    };
    let mut count = 0;
    while let Some(_) = packet.next() {
        count += 1;
    }
    count
}

// Puts the line of a screen.
fn put_screen<K: Drain>(screen: u16, count: usize, out: &mut Output<'_, K>)
    ensures { Puts K.written K.faults (screen_told screen count) out.old out.new }
{
    out.put(b"screen ");
    out.put(Buffer::new().format(screen).as_bytes());
    out.put(b" displays ");
    out.put(Buffer::new().format(count).as_bytes());
    out.put(b"\n");
}

// Puts the lines of the displays that are left in a packet.
fn put_displays<K: Drain>(packet: &mut Packet<'_>, out: &mut Output<'_, K>)
    requires { length (messages_text packet.old.displays) ≤ max_packet }
    ensures { Puts K.written K.faults (displays_lines packet.old.displays) out.old out.new }
{
    while let Some(shown) = packet.next() {
        put_display(&shown, out);
    }
}

// Puts the line of a display.
fn put_display<K: Drain>(shown: &Shown<'_>, out: &mut Output<'_, K>)
    requires { length shown.now.text.now ≤ max_packet }
    ensures { Puts K.written K.faults (display_line (view shown.now)) out.old out.new }
{
    put_index(shown.index, out);
    put_lamps(shown, out);
    put_shown(shown, out);
}

// Puts how it begins.
fn put_index<K: Drain>(index: u16, out: &mut Output<'_, K>)
    ensures { Puts K.written K.faults (index_text index) out.old out.new }
{
    out.put(b"index ");
    out.put(Buffer::new().format(index).as_bytes());
}

// Puts its lamps.
fn put_lamps<K: Drain>(shown: &Shown<'_>, out: &mut Output<'_, K>)
    ensures { Puts K.written K.faults (lamps_text (view shown.now)) out.old out.new }
{
    out.put(b" lamps ");
    out.put(Buffer::new().format(shown.right.code()).as_bytes());
    out.put(b" ");
    out.put(Buffer::new().format(shown.middle.code()).as_bytes());
    out.put(b" ");
    out.put(Buffer::new().format(shown.left.code()).as_bytes());
}

// Puts how it ends.
fn put_shown<K: Drain>(shown: &Shown<'_>, out: &mut Output<'_, K>)
    requires { length shown.now.text.now ≤ max_packet }
    ensures { Puts K.written K.faults (shown_text (view shown.now)) out.old out.new }
{
    out.put(b" brightness ");
    out.put(Buffer::new().format(shown.brightness).as_bytes());
    out.put(b" text ");
    put_text(shown.text, out);
    out.put(b"\n");
}

// Puts the text of a display.
fn put_text<K: Drain>(text: &[u8], out: &mut Output<'_, K>)
    requires { length text.now ≤ max_packet }
    ensures { Puts K.written K.faults (hex_or_dash text.now) out.old out.new }
{
    if text.is_empty() {
        out.put(b"-");
    } else {
        out.put_hex(text);
    }
}
