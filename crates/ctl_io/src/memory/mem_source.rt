//! A source in memory.

ghost use Rattle.std.specs.Prelude.{◌≡◌, Ok, Some, length, take, min};
ghost use Rattle.ctl_io.specs.Calls.{uncalled};
ghost use Rattle.ctl_io.specs.Source.{AreNext, got};
ghost use Rattle.ctl_io.specs.Memory.{read_answer, after_read};

use crate::memory::calls::CallCount;
use crate::{Read, Source};
use std::alloc::{AllocError, Global};
use std::marker::Model;

/// A source over bytes in memory. A read gives as much as there is room for.
#[derive(Debug, Drop)]
pub struct MemSource {
    bytes: Vec<u8>,
    // So many of the bytes were given.
    given: usize,
    calls: CallCount,
}

impl Model for MemSource {
    ghost use Rattle.std.specs.Prelude.{◌≤◌, drop, length};
    ghost use Rattle.ctl_io.specs.Memory.{SourceState};

    ghost Value = { SourceState };

    ghost view = { λ s. record { left = drop s.given s.bytes.items; calls = s.calls } };

    ghost invariant = { λ s. s.given ≤ length s.bytes.items };
}

impl MemSource {
    /// A source of these bytes. `failing` holds the numbers, from 0, of the reads that fail.
    pub fn new(_alloc: Global, bytes: Vec<u8>, failing: Vec<u64>) -> Result<MemSource, AllocError>
        ensures { result ≡ Ok (record { left = bytes.items; calls = uncalled failing.items }) }
    {
        Ok(MemSource {
            bytes,
            given: 0,
            calls: CallCount::new(failing),
        })
    }

    /// Gives the next bytes, as many as there is room for, or fails where the read's number is listed.
    pub fn give(&mut self, into: &mut [u8]) -> Read
        ensures answer { result ≡ read_answer self.old (length into.old) }
        ensures after { self.new ≡ after_read self.old (length into.old) }
        ensures bytes { AreNext (got result) into.new (Some self.old.left) }
    {
        let failed = self.calls.next_fails();
        self.calls.count(failed);
        if failed {
            return Read::Failed;
        }
        if self.given == self.bytes.len() {
            return Read::End;
        }
        let n = copy_front(&self.bytes[self.given..], into);
        self.given += n;
        Read::Got(n)
    }

    /// How often a read failed. The count stands still at its type's end.
    pub fn faults(&self) -> u64
        ensures { result ≡ self.now.calls.faults }
    {
        self.calls.faults()
    }

    /// The bytes that are left.
    pub fn left(&self) -> &[u8]
        ensures { result.now ≡ self.now.left }
    {
        &self.bytes[self.given..]
    }
}

impl Source for MemSource {
    ghost left = { λ s. Some s.left };

    ghost faults = { λ s. s.calls.faults };

    fn left_hint(&self) -> usize {
        self.left().len()
    }

    fn read(&mut self, into: &mut [u8]) -> Read {
        self.give(into)
    }
}

// Copies as much of the front of `bytes` as there is room for, and answers how much that is.
fn copy_front(bytes: &[u8], into: &mut [u8]) -> usize
    ensures count { result ≡ min (length into.old) (length bytes.now) }
    ensures front { take result into.new ≡ take result bytes.now }
{
    let n = into.len().min(bytes.len());
    into[..n].copy_from_slice(&bytes[..n]);
    n
}
