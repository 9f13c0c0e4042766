//! The lines of a trace, from which the history of a plant can be told.

ghost use Rattle.std.specs.Prelude.{◌≡◌, ◌+◌, ◌*◌, ◌≤◌, ◌++◌, All, length};
ghost use Rattle.std.specs.Prelude.{vec_len, vec_capacity};
ghost use Rattle.std.specs.List.{flat_map};
ghost use Rattle.plant_core.specs.Answer.{IsSayable};
ghost use Rattle.plant_core.specs.Displays.{lamp_limit};
ghost use Rattle.display_packets.specs.DisplayPacket.{AreLamps, longest_packet};
ghost use Rattle.panel_session.specs.MostAnswers.{most_answers};
ghost use Rattle.panel_session.specs.OutgoingKept.{answer_bytes};
ghost use Rattle.panel_session.specs.Text.{frames_of};
ghost use Rattle.panel_session.specs.Reply.{display_reply, reply_text, trace_line, MayReply};
ghost use Rattle.trace_lines.specs.TraceLine.{trace_limit, longest_trace_line, most_reply};
ghost use Rattle.trace_lines.specs.TraceLine.{told_bytes, told_line, MaySpell, MayTrace};

use crate::sending::outgoing::Outgoing;
use display_packets::display_packet;
use line_text::{append, append_hex};
use plant_config::Plant;
use plant_core::{Answer, Request};
use std::alloc::{AllocError, Global};
use std::marker::Model;
use trace_lines::LineRoom;

// The most bytes of the frames of 1,024 answers: no page of a dump is longer than the messages of as many answers.
const MAX_SENT: usize = 1024 * 24;

// The most bytes of the packet of a display poll.
const MAX_PACKET: usize = 1158;

/// What the lines of a trace are made with. All memory is taken by `new`.
#[derive(Drop)]
pub struct TraceLines {
    // The frames of answers.
    outgoing: Outgoing,
    // A packet.
    spelled: Vec<u8>,
    // What stands in front of the reply, or a whole line.
    line: LineRoom,
}

impl Model for TraceLines {
    ghost use Rattle.std.specs.Prelude.{◌≤◌, vec_capacity};
    ghost use Rattle.display_packets.specs.DisplayPacket.{longest_packet};
    ghost use Rattle.panel_session.specs.MostAnswers.{most_answers};
    ghost use Rattle.panel_session.specs.OutgoingKept.{answer_bytes};

    ghost Value = { Unit {0} };

    ghost view = { λ lines. tt };

    ghost invariant = { λ lines. (answer_bytes most_answers ≤ lines.outgoing.room)
        × (longest_packet ≤ vec_capacity lines.spelled) };
}

impl TraceLines {
    /// Lines can be made with it, of any plant and in any order.
    pub fn new(alloc: Global) -> Result<TraceLines, AllocError> {
        Ok(TraceLines {
            outgoing: Outgoing::new(alloc, MAX_SENT)?,
            spelled: Vec::with_capacity(alloc, MAX_PACKET)?,
            line: LineRoom::new(alloc)?,
        })
    }

    /// Appends the line of an entry of the history, with its LF: of the request at this position, 0 to 2^62, and its answers, at
    /// most 1,024, and at most 64 to a display poll. It needs 65,537 spare bytes, and takes no memory.
    pub fn append(
        &mut self,
        plant: &Plant,
        position: u64,
        request: &Request,
        answers: &[Answer],
        out: &mut Vec<u8>,
    )
        requires position { position ≤ trace_limit }
        requires request { MayTrace request.now }
        requires sayable { All IsSayable answers.now }
        requires few { length answers.now ≤ most_answers }
        requires reply { MayReply plant.now request.now answers.now }
        requires room { vec_len out.old + longest_trace_line ≤ vec_capacity out.old }
        ensures line { out.new.items
            ≡ out.old.items ++ trace_line plant.now position request.now answers.now }
        ensures most { length (trace_line plant.now position request.now answers.now)
            ≤ longest_trace_line }
        ensures room { vec_capacity out.new ≡ vec_capacity out.old }
    {
        self.append_entry(plant, position, request, answers, out);
    }

    // The same, whatever the numbers of the position and the request are.
    fn append_entry(
        &mut self,
        plant: &Plant,
        position: u64,
        request: &Request,
        answers: &[Answer],
        out: &mut Vec<u8>,
    )
        requires spelled { MaySpell request.now }
        requires sayable { All IsSayable answers.now }
        requires few { length answers.now ≤ most_answers }
        requires reply { MayReply plant.now request.now answers.now }
        requires room { vec_len out.old + longest_trace_line ≤ vec_capacity out.old }
        ensures line { out.new.items
            ≡ out.old.items ++ trace_line plant.now position request.now answers.now }
        ensures most { length (trace_line plant.now position request.now answers.now)
            ≤ longest_trace_line }
        ensures room { vec_capacity out.new ≡ vec_capacity out.old }
    {
        let TraceLines {
            outgoing,
            spelled,
            line,
        } = self;
        append(line.head(position, *request), out);
        put_reply(plant, request, answers, outgoing, spelled, out);
        out.push_reserved(b'\n');
    }

    /// The same of an entry whose answers were spelled before: by the bytes that they send, at most 1,158, as many as the longest
    /// packet has.
    pub fn append_told(&mut self, position: u64, request: &Request, sent: &[u8], out: &mut Vec<u8>)
        requires position { position ≤ trace_limit }
        requires request { MayTrace request.now }
        requires few { length sent.now ≤ longest_packet }
        requires room { vec_len out.old + longest_trace_line ≤ vec_capacity out.old }
        ensures line { out.new.items
            ≡ out.old.items ++ told_line position request.now sent.now }
        ensures room { vec_capacity out.new ≡ vec_capacity out.old }
    {
        append(self.line.write(position, *request, sent), out);
    }

    /// Appends the reply of an entry alone, as its line tells it. It needs 65,537 spare bytes, and takes no memory.
    pub fn append_reply(
        &mut self,
        plant: &Plant,
        request: &Request,
        answers: &[Answer],
        out: &mut Vec<u8>,
    )
        requires sayable { All IsSayable answers.now }
        requires few { length answers.now ≤ most_answers }
        requires reply { MayReply plant.now request.now answers.now }
        requires room { vec_len out.old + longest_trace_line ≤ vec_capacity out.old }
        ensures text { out.new.items
            ≡ out.old.items ++ reply_text plant.now request.now answers.now }
        ensures most { length (reply_text plant.now request.now answers.now)
            ≤ longest_trace_line }
        ensures room { vec_capacity out.new ≡ vec_capacity out.old }
    {
        let TraceLines {
            outgoing,
            spelled: packet,
            line: _,
        } = self;
        put_reply(plant, request, answers, outgoing, packet, out);
    }
}

// Appends the reply of an entry.
fn put_reply(
    plant: &Plant,
    request: &Request,
    answers: &[Answer],
    outgoing: &mut Outgoing,
    spelled: &mut Vec<u8>,
    out: &mut Vec<u8>,
)
    requires sayable { All IsSayable answers.now }
    requires few { length answers.now ≤ most_answers }
    requires reply { MayReply plant.now request.now answers.now }
    requires sent { answer_bytes most_answers ≤ outgoing.old.room }
    requires spelled { longest_packet ≤ vec_capacity spelled.old }
    requires room { vec_len out.old + most_reply ≤ vec_capacity out.old }
    ensures text { out.new.items
        ≡ out.old.items ++ reply_text plant.now request.now answers.now }
    ensures most { vec_len out.new ≤ vec_len out.old + most_reply }
    ensures room { vec_capacity out.new ≡ vec_capacity out.old }
    ensures spelled { vec_capacity spelled.new ≡ vec_capacity spelled.old }
    ensures sent { outgoing.new.room ≡ outgoing.old.room }
{
    match *request {
        Request::Told { .. } | Request::Poll { .. } | Request::Leave { .. } => {
            append_sent(answers, outgoing, out);
        }
        Request::DisplayPoll { screen, .. } => {
            append_shown(plant, screen, answers, spelled, out);
        }
    }
}

// Appends the frames that a panel is sent, in hexadecimal.
fn append_sent(answers: &[Answer], outgoing: &mut Outgoing, out: &mut Vec<u8>)
    requires sayable { All IsSayable answers.now }
    requires few { length answers.now ≤ most_answers }
    requires sent { answer_bytes most_answers ≤ outgoing.old.room }
    requires room { vec_len out.old + most_reply ≤ vec_capacity out.old }
    ensures text { out.new.items
        ≡ out.old.items ++ told_bytes (flat_map (λ sent. sent) (frames_of answers.now)) }
    ensures most { vec_len out.new ≤ vec_len out.old + most_reply }
    ensures room { vec_capacity out.new ≡ vec_capacity out.old }
    ensures sent { outgoing.new.room ≡ outgoing.old.room }
{
    outgoing.answer(answers);
    append_bytes(outgoing.as_slice(), out);
}

// Appends bytes in hexadecimal, and a dash for none.
fn append_bytes(bytes: &[u8], out: &mut Vec<u8>)
    requires few { 2 * length bytes.now ≤ most_reply }
    requires room { vec_len out.old + most_reply ≤ vec_capacity out.old }
    ensures text { out.new.items ≡ out.old.items ++ told_bytes bytes.now }
    ensures most { vec_len out.new ≤ vec_len out.old + most_reply }
    ensures room { vec_capacity out.new ≡ vec_capacity out.old }
{
    match bytes {
        [] => append(b"-", out),
        [_, ..] => append_hex(bytes, out),
    }
}

// Appends what a screen is sent: the packet of the lamps, or that all is finished.
fn append_shown(
    plant: &Plant,
    screen: u16,
    answers: &[Answer],
    spelled: &mut Vec<u8>,
    out: &mut Vec<u8>,
)
    requires few { length answers.now ≤ lamp_limit }
    requires lamps { AreLamps plant.now answers.now }
    requires spelled { longest_packet ≤ vec_capacity spelled.old }
    requires room { vec_len out.old + most_reply ≤ vec_capacity out.old }
    ensures text { out.new.items
        ≡ out.old.items ++ display_reply plant.now screen answers.now }
    ensures most { vec_len out.new ≤ vec_len out.old + most_reply }
    ensures room { vec_capacity out.new ≡ vec_capacity out.old }
    ensures spelled { vec_capacity spelled.new ≡ vec_capacity spelled.old }
{
    match answers {
        [] => append(b"-", out),
        [Answer::Finished, ..] => append(b"finished", out),
        [_, ..] => {
            spelled.clear();
            display_packet(plant, screen, answers, spelled);
            append_hex(spelled, out);
        }
    }
}
