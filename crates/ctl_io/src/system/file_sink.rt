//! The adapter over a writer.

ghost use Rattle.std.specs.Prelude.{◌≡◌, ◌<◌, None, length, take};

use crate::system::answers::write_answer;
use crate::system::attempts::write_again;
use crate::{FaultCount, Sink, Write};
use std::io;

/// A sink over a file or another writer. It shows no bytes and no name. A write that takes no bytes has failed.
#[derive(Drop)]
pub struct FileSink<F> {
    file: F,
    faults: FaultCount,
}

impl<F: io::Write> FileSink<F> {
    ghost use Rattle.std.specs.Io.KnownBytes.{Appends};
    ghost use Rattle.ctl_io.specs.Faults.{count_after};
    ghost use Rattle.ctl_io.specs.Sink.{TakesWithin, took, write_failed};

    /// A sink behind what the writer was given before.
    pub fn new(file: F) -> FileSink<F>
        ensures file { result.file ≡ file }
        ensures faults { result.faults ≡ 0 }
    {
        FileSink {
            file,
            faults: FaultCount::new(),
        }
    }

    /// Takes what one write of the writer takes, which is made again while it is interrupted. Where the writer shows
    /// what it holds, it was given that.
    pub fn take(&mut self, bytes: &[u8]) -> Write
        requires { 0 < length bytes.now }
        ensures within { TakesWithin result (length bytes.now) }
        ensures gave { Appends (F.contents self.old.file) (F.contents self.new.file)
            (take (took result) bytes.now) }
        ensures count { self.new.faults ≡ count_after (write_failed result) self.old.faults }
    {
        write_answer(write_again(&mut self.file, bytes), &mut self.faults)
    }

    /// How often a write failed. The count stands still at its type's end.
    pub fn faults(&self) -> u64
        ensures { result ≡ self.now.faults }
    {
        self.faults.count()
    }
}

impl<F: io::Write + Send> Sink for FileSink<F> {
    ghost written = { λ _. None };

    ghost faults = { λ s. s.faults };

    fn write(&mut self, bytes: &[u8]) -> Write {
        self.take(bytes)
    }
}
