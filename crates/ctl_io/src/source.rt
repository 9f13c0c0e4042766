//! Sources: bytes that come from outside, in order.

ghost use Rattle.std.specs.Prelude.{◌≡◌, ◌<◌, ℕ, List, Option, None, length};
ghost use Rattle.ctl_io.specs.Faults.{count_after};
ghost use Rattle.ctl_io.specs.Source.{IsWithin, AreNext, IsAtEnd, got, behind, read_failed};

/// What a read answers.
#[derive(Clone, Copy, Debug, PartialEq, Eq)]
pub enum Read {
    /// So many bytes were given, at least one.
    Got(usize),
    /// Nothing is left.
    End,
    /// The read failed and gave nothing.
    Failed,
}

/// Bytes that come from outside, in order.
pub trait Source {
    /// The bytes that are left, where the source shows them.
    ghost left: { Self → Option (List ℕ) };

    /// How often a read failed. Only the source's own calls raise it.
    ghost faults: { Self → ℕ };

    /// The name of the file that is read, where the source shows it.
    ghost name: { Self → Option (List ℕ) } = { λ _. None };

    /// How many bytes are likely left, or 0 where the source doesn't know. It binds nobody: there may be fewer, or more.
    fn left_hint(&self) -> usize {
        0
    }

    /// Reads the next bytes into the front of `into`, which isn't empty.
    fn read(&mut self, into: &mut [u8]) -> Read
        requires { 0 < length into.old }
        ensures within { IsWithin result (length into.old) }
        ensures bytes { AreNext (got result) into.new (left self.old) }
        ensures left { left self.new ≡ behind (got result) (left self.old) }
        ensures end { result ≡ Read.End → IsAtEnd (left self.old) }
        ensures name { name self.new ≡ name self.old }
        ensures count { faults self.new ≡ count_after (read_failed result) (faults self.old) };
}
