//! Sinks as an answerer and an outlet see them.

ghost use Rattle.std.specs.Prelude.{◌≡◌, ℕ, List, Option, not};
ghost use Rattle.std.specs.Bool.{OnTrue, OnFalse};
ghost use Rattle.ctl_io.specs.Faults.{count_after};
ghost use Rattle.ctl_io.specs.ReadHalf.{ReadHalf};
ghost use Rattle.ctl_io.specs.Sink.{appended, AppendsPart};

use ctl_io::{Sink, Write};

/// A sink that isn't said to be one that can be moved to another thread.
// kit: in a method of another trait's impl no call can rest on the `Send` that `Sink` asks of its type.
pub trait Drain {
    /// The bytes that were appended, where the sink shows them.
    ghost written: { Self → Option (List ℕ) };

    /// How often a write failed.
    ghost faults: { Self → ℕ };

    /// Its name, where it shows it.
    ghost name: { Self → Option (List ℕ) };

    /// What it shows of its reads.
    ghost read_half: { Self → ReadHalf };

    /// Appends all the bytes, or a shorter front of them where a write fails, and answers which.
    fn take(&mut self, bytes: &[u8]) -> bool
        ensures all { OnTrue result (written self.new ≡ appended (written self.old) bytes.now) }
        ensures part { OnFalse result
            (AppendsPart bytes.now (written self.old) (written self.new)) }
        ensures name { name self.new ≡ name self.old }
        ensures read_half { read_half self.new ≡ read_half self.old }
        ensures count { faults self.new ≡ count_after (not result) (faults self.old) };
}

impl<K: Sink> Drain for K {
    ghost written = { λ sink. K.written sink };

    ghost faults = { λ sink. K.faults sink };

    ghost name = { λ sink. K.name sink };

    ghost read_half = { λ sink. K.read_half sink };

    // The body of `ctl_io::write_all`, a call of which would rest on that here.
    fn take(&mut self, bytes: &[u8]) -> bool {
        let mut rest = bytes;
        while !rest.is_empty() {
            match self.write(rest) {
                Write::Took(n) => rest = &rest[n..],
                Write::Failed => return false,
            }
        }
        true
    }
}
