//! Tapes: what the sessions of a drill write to.

ghost use Rattle.std.specs.Prelude.{◌≡◌, ◌<◌, ◌++◌, IfOk, length, take};
ghost use Rattle.ctl_io.specs.Faults.{count_after};
ghost use Rattle.ctl_io.specs.Sink.{TakesWithin, took, write_failed};
ghost use Rattle.drill.specs.TapeInside.{IsTape, new_tape};

use ctl_io::{FaultCount, Sink, Write};
use std::alloc::{AllocError, Global};
use std::marker::Model;

// A sink in memory that takes of each write as much as there is room for, so that one fails only where it is full.
#[derive(Drop)]
pub(crate) struct Tape {
    // For them all there is room, so that none moves when others come.
    bytes: Vec<u8>,
    room: usize,
    faults: FaultCount,
}

impl Model for Tape {
    ghost use Rattle.std.specs.Prelude.{◌≡◌, ◌<◌, ◌≤◌, length, vec_capacity};
    ghost use Rattle.ctl_io.specs.Memory.{SinkState};
    ghost use Rattle.drill.specs.TapeInside.{tape_of};

    ghost Value = { SinkState };

    ghost view = { λ tape. tape_of tape.bytes.items tape.room tape.faults };

    ghost invariant = { λ tape. (length tape.bytes.items ≤ tape.room)
        × (tape.room ≤ vec_capacity tape.bytes)
        × (0 < tape.faults → length tape.bytes.items ≡ tape.room) };
}

impl Tape {
    // A tape with room for so many bytes, which it takes now.
    pub(crate) fn new(alloc: Global, room: usize) -> Result<Tape, AllocError>
        ensures { IfOk result (λ tape. tape ≡ new_tape room) }
    {
        let bytes = Vec::with_capacity(alloc, room)?;
        Ok(Tape {
            bytes,
            room,
            faults: FaultCount::new(),
        })
    }

    // Appends a front of the bytes, all of them where there is room, or fails where there is none.
    pub(crate) fn take(&mut self, bytes: &[u8]) -> Write
        requires { 0 < length bytes.now }
        ensures within { TakesWithin result (length bytes.now) }
        ensures written { self.new.written ≡ self.old.written ++ take (took result) bytes.now }
        ensures count { self.new.calls.faults
            ≡ count_after (write_failed result) self.old.calls.faults }
        ensures room { self.new.room ≡ self.old.room }
    {
        let n = bytes.len().min(self.room - self.bytes.len());
        if n == 0 {
            self.faults.raise();
            return Write::Failed;
        }
        match self.bytes.extend_from_slice(&bytes[..n]) {
            Ok(()) => Write::Took(n),
            // There was room, so that this never comes.
            Err(_) => {
                self.faults.raise();
                Write::Failed
            }
        }
    }

    // The bytes that were appended.
    pub(crate) fn written(&self) -> &[u8]
        ensures { result.now ≡ self.now.written }
    {
        &self.bytes
    }

    // What is so of a tape at any time, for clauses: it does nothing.
    pub(crate) fn keeps(&self)
        ensures { IsTape self.now }
    {
        let _ = &self.bytes;
    }
}

impl Sink for Tape {
    ghost use Rattle.std.specs.Prelude.{Some, [], ◌∷◌};

    ghost written = { λ tape. Some tape.written };

    ghost faults = { λ tape. tape.calls.faults };

    // It has no file. Its room is what it is known by.
    ghost name = { λ tape. Some (tape.room ∷ []) };

    fn write(&mut self, bytes: &[u8]) -> Write {
        self.take(bytes)
    }
}
