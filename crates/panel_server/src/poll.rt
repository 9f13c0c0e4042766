//! One poll of a screen.

ghost use Rattle.std.specs.Prelude.{◌≡◌, ℕ, ◌<◌, ◌≤◌, All, Bool, true, length, not};
ghost use Rattle.std.specs.Prelude.{vec_len, vec_capacity};
ghost use Rattle.std.specs.Prelude.{IfErr, IfOk, OnErr};
ghost use Rattle.std.specs.Bool.{OnFalse, OnTrue};
ghost use Rattle.ctl_io.specs.Faults.{count_after};
ghost use Rattle.ctl_io.specs.Sink.{appended, AppendsPart};
ghost use Rattle.ctl_net.specs.Net.{TakesAll};
ghost use Rattle.plant_config.specs.IsPlant.{IsPlant};
ghost use Rattle.plant_config.specs.Plant.{PlantData};
ghost use Rattle.plant_core.specs.Answer.{IsSayable};
ghost use Rattle.plant_core.specs.Displays.{lamp_limit};
ghost use Rattle.plant_core.specs.State.{FitsPlant};
ghost use Rattle.plant_core.specs.declared.request.Request.TheVariants.{DisplayPoll};
ghost use Rattle.display_packets.specs.DisplayPacket.{AreLamps, longest_packet};
ghost use Rattle.trace_lines.specs.TraceLine.{longest_trace_line, trace_limit};
ghost use Rattle.panel_session.specs.Reply.{trace_line};
ghost use Rattle.panel_server.specs.Driven.{ends_by_trace, has_lamps};
ghost use Rattle.panel_server.specs.DrivenInside.{EndsPolling, HasPolled, HasRoomFor};
ghost use Rattle.panel_server.specs.DrivenInside.{TellsLamps, outside, packet_bytes, polled_by};
ghost use Rattle.panel_server.specs.Seats.{IsSeatOf};

use crate::displays::DriverEnd;
use crate::poll_room::PollRoom;
use ctl_io::{Sink, write_all};
use ctl_net::{DisplayPort, Sent};
use display_packets::display_packet;
use history_lock::{HistoryLock, Seat};
use panel_session::TraceLines;
use plant_config::Plant;
use plant_core::{Answer, PlantState, Request};
use std::sync::Wait;

// What a poll was answered.
#[derive(Clone, Copy, PartialEq, Eq)]
pub(crate) enum Polled {
    // Nothing.
    Quiet,
    // Lamps, and the send of their packet was answered so.
    Lit(Sent),
    // All is finished.
    Last,
}

impl Polled {
    ghost use Rattle.panel_server.specs.DrivenInside.{lost_by, sent_by, was_last};

    // How many packets it sent.
    pub(crate) fn sent(self) -> u64
        ensures sent { result ≡ sent_by self }
        ensures few { result ≤ 1 }
    {
        match self {
            Polled::Lit(Sent::Done) => 1,
            Polled::Lit(Sent::Failed) | Polled::Quiet | Polled::Last => 0,
        }
    }

    // How many packets it lost.
    pub(crate) fn lost(self) -> u64
        ensures lost { result ≡ lost_by self }
        ensures few { result ≤ 1 }
    {
        match self {
            Polled::Lit(Sent::Failed) => 1,
            Polled::Lit(Sent::Done) | Polled::Quiet | Polled::Last => 0,
        }
    }

    // Whether all is finished.
    pub(crate) fn is_last(self) -> bool
        ensures { result ≡ was_last self }
    {
        matches!(self, Polled::Last)
    }
}

// Polls a screen: it asks the lock, traces the entry, and then sends the packet of its lamps, if it has some. The error is how
// the worker ends.
pub(crate) fn poll_screen<W: Wait, P: DisplayPort, K: Sink>(
    rt: &W,
    plant: &Plant,
    lock: &HistoryLock<PlantState>,
    seat: &mut Seat<PlantState>,
    port: &mut P,
    trace: &mut K,
    room: &mut PollRoom,
    screen: u16,
    refresh: bool,
) -> Result<Polled, DriverEnd>
    requires plant { IsPlant plant.now }
    requires seat { IsSeatOf plant.now lock.now seat.old }
    requires takes { TakesAll P.takes }
    requires fits { FitsPlant plant.now (DisplayPoll screen refresh) }
    requires room { HasRoomFor plant.now room.old }
    ensures polled { IfOk result (λ polled.
        HasPolled P.was_sent P.faults plant.now (DisplayPoll screen refresh) polled
        (outside seat.old port.old (K.written trace.old) (K.faults trace.old))
        (outside seat.new port.new (K.written trace.new) (K.faults trace.new))) }
    ensures ends { IfErr result (λ end. EndsPolling end plant.now (DisplayPoll screen refresh)
        seat.old seat.new (K.written trace.old) (K.written trace.new)) }
    ensures unsent { OnErr result (port.new ≡ port.old) }
    ensures opening { P.opening port.new ≡ P.opening port.old }
    ensures cause { IfErr result (λ end.
        K.faults trace.new ≡ count_after (ends_by_trace end) (K.faults trace.old)) }
    ensures room { HasRoomFor plant.now room.new }
    ensures trace_name { K.name trace.new ≡ K.name trace.old }
{
    let PollRoom {
        answers,
        lines,
        line,
        packet,
    } = room;
    let request = Request::DisplayPoll { screen, refresh };
    answers.clear();
    let Ok(position) = lock.call(rt, seat, &request, answers) else {
        return Err(DriverEnd::Full);
    };
    let told = answers.items();
    spell(plant, screen, told, packet);
    if !trace_poll(
        plant, position, screen, refresh, told, packet, lines, line, trace,
    ) {
        return Err(DriverEnd::TraceFault);
    }
    Ok(tell(told, packet, port))
}

// Spells the packet of the lamps that a poll was answered with, no bytes if these aren't such.
fn spell(plant: &Plant, screen: u16, answers: &[Answer], packet: &mut Vec<u8>)
    requires lamps { AreLamps plant.now answers.now }
    requires few { length answers.now ≤ lamp_limit }
    requires room { longest_packet ≤ vec_capacity packet.old }
    ensures packet { packet.new.items ≡ packet_bytes plant.now screen answers.now }
    ensures most { vec_len packet.new ≤ longest_packet }
    ensures room { vec_capacity packet.new ≡ vec_capacity packet.old }
{
    packet.clear();
    match answers {
        [] | [Answer::Finished, ..] => {}
        [_, ..] => display_packet(plant, screen, answers, packet),
    }
}

// Writes the line of a poll's entry, with the packet as it was spelled. False where that failed.
fn trace_poll<K: Sink>(
    plant: &Plant,
    position: u64,
    screen: u16,
    refresh: bool,
    answers: &[Answer],
    packet: &[u8],
    lines: &mut TraceLines,
    line: &mut Vec<u8>,
    trace: &mut K,
) -> bool
    requires position { position ≤ trace_limit }
    requires sayable { All IsSayable answers.now }
    requires few { length answers.now ≤ lamp_limit }
    requires lamps { AreLamps plant.now answers.now }
    requires packet { packet.now ≡ packet_bytes plant.now screen answers.now }
    requires most { length packet.now ≤ longest_packet }
    requires room { longest_trace_line ≤ vec_capacity line.old }
    ensures all { OnTrue result (K.written trace.new ≡ appended (K.written trace.old)
        (trace_line plant.now position (DisplayPoll screen refresh) answers.now)) }
    ensures part { OnFalse result (AppendsPart
        (trace_line plant.now position (DisplayPoll screen refresh) answers.now)
        (K.written trace.old) (K.written trace.new)) }
    ensures count { K.faults trace.new ≡ count_after (not result) (K.faults trace.old) }
    ensures room { vec_capacity line.new ≡ vec_capacity line.old }
    ensures name { K.name trace.new ≡ K.name trace.old }
{
    put_line(
        plant, position, screen, refresh, answers, packet, lines, line,
    );
    write_all(trace, line)
}

// Puts the line of a poll's entry in place of what there was. Bytes of a packet aren't spelled again.
fn put_line(
    plant: &Plant,
    position: u64,
    screen: u16,
    refresh: bool,
    answers: &[Answer],
    packet: &[u8],
    lines: &mut TraceLines,
    line: &mut Vec<u8>,
)
    requires position { position ≤ trace_limit }
    requires sayable { All IsSayable answers.now }
    requires few { length answers.now ≤ lamp_limit }
    requires lamps { AreLamps plant.now answers.now }
    requires packet { packet.now ≡ packet_bytes plant.now screen answers.now }
    requires most { length packet.now ≤ longest_packet }
    requires room { longest_trace_line ≤ vec_capacity line.old }
    ensures line { line.new.items
        ≡ trace_line plant.now position (DisplayPoll screen refresh) answers.now }
    ensures room { vec_capacity line.new ≡ vec_capacity line.old }
{
    let request = Request::DisplayPoll { screen, refresh };
    line.clear();
    if packet.is_empty() {
        lines.append(plant, position, &request, answers, line);
    } else {
        lines.append_told(position, &request, packet, line);
    }
}

// Sends the packet of the lamps that a poll was answered with, if these are such.
fn tell<P: DisplayPort>(answers: &[Answer], packet: &[u8], port: &mut P) -> Polled
    requires takes { TakesAll P.takes }
    requires some { has_lamps answers.now ≡ true → 0 < length packet.now }
    ensures told { (plant : PlantData) (seat screen : ℕ) (refresh : Bool)
        → packet.now ≡ packet_bytes plant screen answers.now
        → TellsLamps P.was_sent P.faults plant (polled_by seat screen refresh answers.now)
        result port.old port.new }
    ensures opening { P.opening port.new ≡ P.opening port.old }
{
    match answers {
        [] => Polled::Quiet,
        [Answer::Finished, ..] => Polled::Last,
        [_, ..] => Polled::Lit(port.send(packet)),
    }
}
