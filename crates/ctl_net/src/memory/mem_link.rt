//! A link in memory.

ghost use Rattle.std.specs.Prelude.{◌≡◌, ◌<◌, Some, IfOk, length};
ghost use Rattle.ctl_io.specs.Memory.{write_answer, after_write};
ghost use Rattle.ctl_io.specs.Source.{AreNext};
ghost use Rattle.ctl_net.specs.Link.{given};
ghost use Rattle.ctl_net.specs.LinkEvents.{bytes_of};
ghost use Rattle.ctl_net.specs.MemLink.{new_link, input_answer, after_input};

use crate::memory::mem_input::MemInput;
use crate::{Link, LinkEvent, LinkRead};
use ctl_io::{MemSink, Sink, Write};
use std::alloc::{AllocError, Global};
use std::marker::Model;

/// A link in memory. Each read gives one event, or of a piece as much as there is room for. Behind the events it ends.
#[derive(Debug, Drop)]
pub struct MemLink {
    input: MemInput,
    output: MemSink,
}

impl Model for MemLink {
    ghost use Rattle.ctl_net.specs.MemLink.{LinkState};

    ghost Value = { LinkState };

    ghost view = { λ l. record { input = l.input; output = l.output } };
}

impl MemLink {
    /// A link over which these events come, with room for `room` written bytes, which it takes now with that for the
    /// reads that it tells. An empty piece is passed over. `failing_reads` and `failing_writes` hold the numbers, from
    /// 0, of the reads and of the writes that fail.
    pub fn new(
        alloc: Global,
        events: Vec<LinkEvent>,
        room: usize,
        failing_reads: Vec<u64>,
        failing_writes: Vec<u64>,
    ) -> Result<MemLink, AllocError>
        ensures { IfOk result (λ link.
            link ≡ new_link events.items room failing_reads.items failing_writes.items) }
    {
        Ok(MemLink {
            input: MemInput::new(alloc, events, failing_reads)?,
            output: MemSink::new(alloc, room, failing_writes)?,
        })
    }

    /// Gives the next event, or fails where the read's number is listed.
    pub fn give(&mut self, into: &mut [u8]) -> LinkRead
        requires { 0 < length into.old }
        ensures answer { result ≡ input_answer self.old.input (length into.old) }
        ensures after { self.new.input ≡
            after_input self.old.input (length into.old) into.new }
        ensures output { self.new.output ≡ self.old.output }
        ensures bytes { AreNext (given result) into.new (Some (bytes_of self.old.input.events)) }
    {
        self.input.give(into)
    }

    /// Appends all the bytes, or fails where the write's number is listed or there isn't room for all.
    pub fn take(&mut self, bytes: &[u8]) -> Write
        ensures answer { result ≡ write_answer self.old.output bytes.now }
        ensures after { self.new.output ≡ after_write self.old.output bytes.now }
        ensures input { self.new.input ≡ self.old.input }
    {
        self.output.take(bytes)
    }

    /// The bytes that were written.
    pub fn written(&self) -> &[u8]
        ensures { result.now ≡ self.now.output.written }
    {
        self.output.written()
    }

    /// How often a write failed. The count stands still at its type's end.
    pub fn write_faults(&self) -> u64
        ensures { result ≡ self.now.output.calls.faults }
    {
        self.output.faults()
    }

    /// How often a read failed. The count stands still at its type's end.
    pub fn read_faults(&self) -> u64
        ensures { result ≡ self.now.input.calls.faults }
    {
        self.input.faults()
    }

    /// How often a read was idle. The count stands still at its type's end.
    pub fn idles(&self) -> u64
        ensures { result ≡ self.now.input.idles }
    {
        self.input.idles()
    }
}

impl Sink for MemLink {
    ghost use Rattle.ctl_net.specs.MemLink.{read_half_of};

    ghost written = { λ l. Some l.output.written };

    ghost faults = { λ l. l.output.calls.faults };

    ghost read_half = { λ l. read_half_of l.input };

    fn write(&mut self, bytes: &[u8]) -> Write {
        self.take(bytes)
    }
}

impl Link for MemLink {
    fn read(&mut self, into: &mut [u8]) -> LinkRead {
        self.give(into)
    }
}
