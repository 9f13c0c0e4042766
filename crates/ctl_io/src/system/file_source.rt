//! The adapter over a reader.

ghost use Rattle.std.specs.Prelude.{◌≡◌, ◌-◌, ◌<◌, None, length, take};

use crate::system::answers::read_answer;
use crate::system::attempts::read_again;
use crate::{FaultCount, Read, Source};
use std::io;

/// A source over a file or another reader. It shows no bytes and no name.
#[derive(Drop)]
pub struct FileSource<F> {
    file: F,
    // So many bytes are likely left.
    hint: usize,
    faults: FaultCount,
}

impl<F: io::Read> FileSource<F> {
    ghost use Rattle.std.specs.Io.KnownBytes.{Consumes, IsAtEnd};
    ghost use Rattle.ctl_io.specs.Faults.{count_after};
    ghost use Rattle.ctl_io.specs.Source.{IsWithin, got, read_failed};

    /// A source that begins where the reader is.
    pub fn new(file: F) -> FileSource<F>
        ensures file { result.file ≡ file }
        ensures faults { ⟦<FileSource<F> as Source>⟧.faults result ≡ 0 }
    {
        FileSource::with_hint(file, 0)
    }

    /// A source that begins where the reader is, which likely gives so many bytes.
    pub(crate) fn with_hint(file: F, hint: usize) -> FileSource<F>
        ensures file { result.file ≡ file }
        ensures hint { result.hint ≡ hint }
        ensures faults { result.faults ≡ 0 }
    {
        FileSource {
            file,
            hint,
            faults: FaultCount::new(),
        }
    }

    /// Gives what one read of the reader gives, which is made again while it is interrupted. Where the reader shows what
    /// it has left, it gives that, and ends where the reader does.
    pub fn give(&mut self, into: &mut [u8]) -> Read
        requires { 0 < length into.old }
        ensures within { IsWithin result (length into.old) }
        ensures gave { Consumes (F.remaining self.old.file) (F.remaining self.new.file)
            (take (got result) into.new) }
        ensures ended { result ≡ Read.End → IsAtEnd (F.remaining self.new.file) }
        ensures hint { self.new.hint ≡ self.old.hint - got result }
        ensures count { self.new.faults ≡ count_after (read_failed result) self.old.faults }
    {
        let read = read_answer(read_again(&mut self.file, into), &mut self.faults);
        if let Read::Got(n) = read {
            self.hint = self.hint.saturating_sub(n);
        }
        read
    }

    /// How often a read failed. The count stands still at its type's end.
    pub fn faults(&self) -> u64
        ensures { result ≡ ⟦<FileSource<F> as Source>⟧.faults self.now }
    {
        self.faults.count()
    }
}

impl<F: io::Read> Source for FileSource<F> {
    ghost use Rattle.std.specs.Io.KnownBytes.{Consumes, IsAtEnd};
    ghost use Rattle.ctl_io.specs.Faults.{count_after};
    ghost use Rattle.ctl_io.specs.Source.{IsWithin, got, read_failed};

    ghost left = { λ _. None };

    ghost faults = { λ s. s.faults };

    fn left_hint(&self) -> usize {
        self.hint
    }

    // The source shows nothing, so the trait's clauses of what is left hold; these say the same of what the reader shows.
    fn read(&mut self, into: &mut [u8]) -> Read
        requires { 0 < length into.old }
        ensures within { IsWithin result (length into.old) }
        ensures gave { Consumes (F.remaining self.old.file) (F.remaining self.new.file)
            (take (got result) into.new) }
        ensures ended { result ≡ Read.End → IsAtEnd (F.remaining self.new.file) }
        ensures count { self.new.faults ≡ count_after (read_failed result) self.old.faults }
    {
        self.give(into)
    }
}
