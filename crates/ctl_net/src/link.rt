//! Links: connections that are read and written.

ghost use Rattle.std.specs.Prelude.{◌≡◌, ◌<◌, length};
ghost use Rattle.ctl_io.specs.Source.{AreNext, IsAtEnd};
ghost use Rattle.ctl_net.specs.Link.{GivesWithin, given, after_link_read};

use ctl_io::Sink;

/// What a read of a link answers.
#[derive(Clone, Copy, Debug, PartialEq, Eq)]
pub enum LinkRead {
    /// So many bytes were given, at least one.
    Got(usize),
    /// Nothing came for a while. More may come.
    Idle,
    /// Nothing is left.
    End,
    /// The read failed and gave nothing.
    Failed,
}

/// A connection: a sink that can be read too. Its count of faults as a sink is that of its writes, and its read half has
/// a count of its own.
pub trait Link: Sink {
    /// Reads the next bytes into the front of `into`, which isn't empty. It leaves the written bytes as they are.
    fn read(&mut self, into: &mut [u8]) -> LinkRead
        requires { 0 < length into.old }
        ensures within { GivesWithin result (length into.old) }
        ensures bytes { AreNext (given result) into.new (Self.read_half self.old).left }
        ensures end { result ≡ LinkRead.End → IsAtEnd (Self.read_half self.old).left }
        ensures read_half { Self.read_half self.new ≡
            after_link_read result (length into.old) into.new (Self.read_half self.old) }
        ensures written { Self.written self.new ≡ Self.written self.old }
        ensures name { Self.name self.new ≡ Self.name self.old }
        ensures write_count { Self.faults self.new ≡ Self.faults self.old };
}
