//! Sinks: places outside that bytes are written to, in order.

ghost use Rattle.std.specs.Prelude.{◌≡◌, ◌<◌, ℕ, List, Option, None, length, take};
ghost use Rattle.ctl_io.specs.Faults.{count_after};
ghost use Rattle.ctl_io.specs.ReadHalf.{ReadHalf, no_read_half};
ghost use Rattle.ctl_io.specs.Sink.{TakesWithin, took, appended, write_failed};

/// What a write answers.
#[derive(Clone, Copy, Debug, PartialEq, Eq)]
pub enum Write {
    /// So many bytes were appended, at least one.
    Took(usize),
    /// The write failed and appended nothing.
    Failed,
}

/// A place outside that bytes are appended to, in order. It can be moved to another thread. What can be read too, as a
/// link, is a sink with a read half.
pub trait Sink: Send {
    /// The bytes that were appended, where the sink shows them.
    ghost written: { Self → Option (List ℕ) };

    /// How often a write failed. Only the sink's own calls raise it.
    ghost faults: { Self → ℕ };

    /// The name of the file that is written, where the sink shows it.
    ghost name: { Self → Option (List ℕ) } = { λ _. None };

    /// What the sink shows of its reads, where it can be read too, as a link. No write changes it.
    ghost read_half: { Self → ReadHalf } = { λ _. no_read_half };

    /// Appends a front of `bytes`, which aren't empty.
    fn write(&mut self, bytes: &[u8]) -> Write
        requires { 0 < length bytes.now }
        ensures within { TakesWithin result (length bytes.now) }
        ensures written { written self.new
            ≡ appended (written self.old) (take (took result) bytes.now) }
        ensures name { name self.new ≡ name self.old }
        ensures read_half { read_half self.new ≡ read_half self.old }
        ensures count { faults self.new ≡ count_after (write_failed result) (faults self.old) };
}
