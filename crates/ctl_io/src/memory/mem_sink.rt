//! A sink in memory.

ghost use Rattle.std.specs.Prelude.{◌≡◌, [], Some, IfOk};
ghost use Rattle.ctl_io.specs.Calls.{uncalled};
ghost use Rattle.ctl_io.specs.Memory.{write_answer, after_write};

use crate::memory::calls::CallCount;
use crate::{Sink, Write};
use line_text::append;
use std::alloc::{AllocError, Global};
use std::marker::Model;

/// A sink in memory, with room for so many bytes. A write that there isn't room for fails.
#[derive(Debug, Drop)]
pub struct MemSink {
    written: Vec<u8>,
    calls: CallCount,
}

impl Model for MemSink {
    ghost use Rattle.std.specs.Prelude.{vec_capacity};
    ghost use Rattle.ctl_io.specs.Memory.{SinkState};

    ghost Value = { SinkState };

    ghost view = { λ s. record {
      written = s.written.items;
      room = vec_capacity s.written;
      calls = s.calls;
    } };
}

impl MemSink {
    /// A sink with room for `room` bytes, which it takes now. `failing` holds the numbers, from 0, of the writes
    /// that fail.
    pub fn new(alloc: Global, room: usize, failing: Vec<u64>) -> Result<MemSink, AllocError>
        ensures { IfOk result (λ sink.
            sink ≡ record { written = []; room = room; calls = uncalled failing.items }) }
    {
        Ok(MemSink {
            written: Vec::with_capacity(alloc, room)?,
            calls: CallCount::new(failing),
        })
    }

    /// Appends all the bytes, or fails where the write's number is listed or there isn't room for all.
    pub fn take(&mut self, bytes: &[u8]) -> Write
        ensures answer { result ≡ write_answer self.old bytes.now }
        ensures after { self.new ≡ after_write self.old bytes.now }
    {
        let room = self.written.capacity() - self.written.len();
        let failed = self.calls.next_fails() || bytes.len() > room;
        self.calls.count(failed);
        if failed {
            return Write::Failed;
        }
        append(bytes, &mut self.written);
        Write::Took(bytes.len())
    }

    /// The bytes that were appended.
    pub fn written(&self) -> &[u8]
        ensures { result.now ≡ self.now.written }
    {
        &self.written
    }

    /// How often a write failed. The count stands still at its type's end.
    pub fn faults(&self) -> u64
        ensures { result ≡ self.now.calls.faults }
    {
        self.calls.faults()
    }
}

impl Sink for MemSink {
    ghost written = { λ s. Some s.written };

    ghost faults = { λ s. s.calls.faults };

    fn write(&mut self, bytes: &[u8]) -> Write {
        self.take(bytes)
    }
}
