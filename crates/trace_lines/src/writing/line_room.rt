//! The room that one line of a trace is written in.

ghost use Rattle.std.specs.Prelude.{◌≡◌, ◌+◌, ◌*◌, ◌≤◌, ◌++◌, length, vec_capacity};
ghost use Rattle.swp08_messages.specs.Text.{max_len};
ghost use Rattle.trace_lines.specs.TraceLine.{line_head, longest_trace_line, most_head};
ghost use Rattle.trace_lines.specs.TraceLine.{most_reply, told_bytes, told_line, MaySpell};

use crate::writing::request_line::put_request;
use line_text::Room;
use plant_core::Request;
use std::alloc::{AllocError, Global};
use std::marker::Model;
use swp08_messages::Message;

/// What a line is written in, and the DATA of its message before. All memory is taken by `new`.
#[derive(Drop)]
pub struct LineRoom {
    spelled: Vec<u8>,
    bytes: Room,
}

impl Model for LineRoom {
    ghost use Rattle.std.specs.Prelude.{◌≤◌, vec_capacity};
    ghost use Rattle.swp08_messages.specs.Text.{max_len};

    ghost Value = { Unit {0} };

    ghost view = { λ line. tt };

    ghost invariant = { λ line. max_len ≤ vec_capacity line.spelled };
}

impl LineRoom {
    ghost use Rattle.std.specs.Borrow.{sem};
    ghost use Rattle.trace_lines.specs.LineRoomInside.{LineStays};

    /// Room for any line.
    pub fn new(alloc: Global) -> Result<LineRoom, AllocError> {
        Ok(LineRoom {
            spelled: Vec::with_capacity(alloc, Message::MAX_LEN)?,
            bytes: Room::new(alloc)?,
        })
    }

    /// The line, with its LF, of an entry at this position, by the bytes that its answers send, at most 24,576. It takes no
    /// memory.
    pub fn write(&mut self, position: u64, request: Request, sent: &[u8]) -> &[u8]
        requires spelled { MaySpell request }
        requires few { 2 * length sent.now ≤ most_reply }
        ensures* stays { sem 𝓛 (LineStays self.entry) }
        ensures line { result.now ≡ told_line position request sent.now }
        ensures most { length result.now ≤ longest_trace_line }
    {
        put_line(position, &request, sent, &mut self.spelled, &mut self.bytes);
        self.bytes.bytes()
    }

    /// What stands in front of the reply in the line of an entry at this position. It takes no memory.
    pub fn head(&mut self, position: u64, request: Request) -> &[u8]
        requires { MaySpell request }
        ensures* stays { sem 𝓛 (LineStays self.entry) }
        ensures head { result.now ≡ line_head position request }
        ensures most { length result.now ≤ most_head }
    {
        put_head(position, &request, &mut self.spelled, &mut self.bytes);
        self.bytes.bytes()
    }
}

// The line of an entry at this position, in place of what there was.
fn put_line(position: u64, request: &Request, sent: &[u8], spelled: &mut Vec<u8>, out: &mut Room)
    requires request { MaySpell request.now }
    requires few { 2 * length sent.now ≤ most_reply }
    requires spelled { max_len ≤ vec_capacity spelled.old }
    ensures line { out.new ≡ told_line position request.now sent.now }
    ensures spelled { vec_capacity spelled.new ≡ vec_capacity spelled.old }
{
    put_head(position, request, spelled, out);
    put_bytes(sent, out);
    out.push_all(b"\n");
}

// What stands in front of the reply, in place of what there was.
fn put_head(position: u64, request: &Request, spelled: &mut Vec<u8>, out: &mut Room)
    requires request { MaySpell request.now }
    requires spelled { max_len ≤ vec_capacity spelled.old }
    ensures head { out.new ≡ line_head position request.now }
    ensures most { length out.new ≤ most_head }
    ensures spelled { vec_capacity spelled.new ≡ vec_capacity spelled.old }
{
    out.clear();
    out.push_decimal(position);
    out.push_all(b" ");
    put_request(request, spelled, out);
    out.push_all(b" = ");
}

// Puts bytes in hexadecimal, and a dash for none.
#[inline]
fn put_bytes(bytes: &[u8], out: &mut Room)
    requires few { 2 * length bytes.now ≤ most_reply }
    requires room { length out.old ≤ most_head }
    ensures text { out.new ≡ out.old ++ told_bytes bytes.now }
    ensures most { length out.new ≤ length out.old + most_reply }
{
    match bytes {
        [] => out.push_all(b"-"),
        [_, ..] => out.push_hex(bytes),
    }
}
