//! The adapter over a connection.

ghost use Rattle.std.specs.Prelude.{◌≡◌, ◌≢◌, ◌<◌, ◌≤◌, [], IsTrue, length, take, vec_capacity};
ghost use Rattle.std.specs.Io.KnownBytes.{Appends};

use crate::system::link_answer::link_answer;
use crate::{Link, LinkRead};
use ctl_io::{FaultCount, Sink, Write, read_again, write_again, write_answer};
use line_text::append;
use std::io;

/// A link over a connection. It shows no bytes. What it is given it keeps, as far as it has room, and sends it before its
/// next read, before it takes more than there is room for, and once its acceptor has it back: so what answers the messages
/// of one read leaves as one. A read that waited as long as it may is idle, and a write that takes no bytes has failed.
#[derive(Drop)]
pub struct TcpLink<S> {
    stream: S,
    // What it was given and hasn't sent.
    unsent: Vec<u8>,
    read_faults: FaultCount,
    write_faults: FaultCount,
    // Counted as faults are.
    idles: FaultCount,
}

impl<S: io::Read + io::Write> TcpLink<S> {
    ghost use Rattle.std.specs.Io.KnownBytes.{Keeps};
    ghost use Rattle.ctl_io.specs.Faults.{count_after};
    ghost use Rattle.ctl_io.specs.Sink.{TakesWithin, took, write_failed};
    ghost use Rattle.ctl_net.specs.Link.{GivesWithin, given, link_read_failed, was_idle};
    ghost use Rattle.ctl_net.specs.TcpLink.{given_to, ReadsBehind};

    /// A link over a connection as it stands, with the room of this vector, whose bytes go.
    pub fn over(stream: S, mut room: Vec<u8>) -> TcpLink<S>
        ensures stream { result.stream ≡ stream }
        ensures unsent { result.unsent.items ≡ [] }
        ensures read_faults { result.read_faults ≡ 0 }
        ensures write_faults { result.write_faults ≡ 0 }
        ensures idles { result.idles ≡ 0 }
    {
        room.clear();
        TcpLink {
            stream,
            unsent: room,
            read_faults: FaultCount::new(),
            write_faults: FaultCount::new(),
            idles: FaultCount::new(),
        }
    }

    /// Sends what is unsent, and then gives what one read of the connection gives, which is made again while it is
    /// interrupted. Where the connection shows what it has left, it gives that, and ends where the connection does. A
    /// send that fails is a failed read.
    pub fn give(&mut self, into: &mut [u8]) -> LinkRead
        requires { 0 < length into.old }
        ensures within { GivesWithin result (length into.old) }
        ensures gave { result ≢ LinkRead.Failed → ReadsBehind S.contents S.remaining
            (given_to S.contents self.old.stream self.old.unsent.items) self.new.stream
            result into.new }
        ensures sent { result ≢ LinkRead.Failed → self.new.unsent.items ≡ [] }
        ensures count { self.new.read_faults
            ≡ count_after (link_read_failed result) self.old.read_faults }
        ensures idles { self.new.idles ≡ count_after (was_idle result) self.old.idles }
        ensures write_count { self.new.write_faults ≡ self.old.write_faults }
    {
        if !self.send() {
            self.read_faults.raise();
            return LinkRead::Failed;
        }
        let read = read_again(&mut self.stream, into);
        link_answer(read, &mut self.read_faults, &mut self.idles)
    }

    /// Takes all the bytes where there is room for them, before which what is unsent is sent if it has to be; else what
    /// one write of the connection takes, which is made again while it is interrupted. Where the connection shows what it
    /// was given, that and what is unsent has the bytes behind it.
    #[tactic(auto, using(crate::proofs::TcpLinkLemmas::given_behind, crate::proofs::TcpLinkLemmas::given_more))]
    pub fn take(&mut self, bytes: &[u8]) -> Write
        requires { 0 < length bytes.now }
        ensures within { TakesWithin result (length bytes.now) }
        ensures gave { Appends (given_to S.contents self.old.stream self.old.unsent.items)
            (given_to S.contents self.new.stream self.new.unsent.items)
            (take (took result) bytes.now) }
        ensures count { self.new.write_faults
            ≡ count_after (write_failed result) self.old.write_faults }
        ensures read_count { self.new.read_faults ≡ self.old.read_faults }
        ensures idles { self.new.idles ≡ self.old.idles }
    {
        if bytes.len() > self.unsent.capacity() - self.unsent.len() {
            if !self.send() {
                self.write_faults.raise();
                return Write::Failed;
            }
            if bytes.len() > self.unsent.capacity() {
                return self.pass(bytes);
            }
        }
        append(bytes, &mut self.unsent);
        Write::Took(bytes.len())
    }

    // Takes what one write of the connection takes, and keeps nothing of it.
    fn pass(&mut self, bytes: &[u8]) -> Write
        requires { 0 < length bytes.now }
        ensures within { TakesWithin result (length bytes.now) }
        ensures gave { Appends (S.contents self.old.stream) (S.contents self.new.stream)
            (take (took result) bytes.now) }
        ensures unsent { self.new.unsent ≡ self.old.unsent }
        ensures count { self.new.write_faults
            ≡ count_after (write_failed result) self.old.write_faults }
        ensures read_count { self.new.read_faults ≡ self.old.read_faults }
        ensures idles { self.new.idles ≡ self.old.idles }
    {
        write_answer(write_again(&mut self.stream, bytes), &mut self.write_faults)
    }

    /// Sends what is unsent: whether all of it left. What didn't stays. No count moves.
    pub fn send(&mut self) -> bool
        ensures all { IsTrue result → self.new.unsent.items ≡ [] }
        ensures gave { Keeps (given_to S.contents self.old.stream self.old.unsent.items)
            (given_to S.contents self.new.stream self.new.unsent.items) }
        ensures room { vec_capacity self.new.unsent ≡ vec_capacity self.old.unsent }
        ensures read_count { self.new.read_faults ≡ self.old.read_faults }
        ensures write_count { self.new.write_faults ≡ self.old.write_faults }
        ensures idles { self.new.idles ≡ self.old.idles }
    {
        let sent = send_front(&self.unsent, &mut self.stream);
        let rest = self.unsent.len() - sent;
        self.unsent.copy_within(sent.., 0);
        self.unsent.truncate(rest);
        rest == 0
    }

    /// How often a read failed. The count stands still at its type's end.
    pub fn read_faults(&self) -> u64
        ensures { result ≡ self.now.read_faults }
    {
        self.read_faults.count()
    }

    /// How often a write failed. The count stands still at its type's end.
    pub fn write_faults(&self) -> u64
        ensures { result ≡ self.now.write_faults }
    {
        self.write_faults.count()
    }

    /// How often a read was idle. The count stands still at its type's end.
    pub fn idles(&self) -> u64
        ensures { result ≡ self.now.idles }
    {
        self.idles.count()
    }
}

impl<S: Drop> TcpLink<S> {
    /// The room of the link, to be another's. What is unsent goes.
    pub fn into_room(self) -> Vec<u8> {
        self.unsent
    }
}

impl<S: io::Read + io::Write + Send> Sink for TcpLink<S> {
    ghost use Rattle.std.specs.Prelude.{None};

    ghost written = { λ _. None };

    ghost faults = { λ l. l.write_faults };

    ghost read_half = { λ l. record {
      left = None;
      reads = None;
      faults = l.read_faults;
      idles = l.idles;
    } };

    fn write(&mut self, bytes: &[u8]) -> Write {
        self.take(bytes)
    }
}

impl<S: io::Read + io::Write + Send> Link for TcpLink<S> {
    fn read(&mut self, into: &mut [u8]) -> LinkRead {
        self.give(into)
    }
}

// Sends bytes until all have left or the connection takes none: how many have left.
fn send_front<S: io::Write>(bytes: &[u8], stream: &mut S) -> usize
    ensures within { result ≤ length bytes.now }
    ensures gave { Appends (S.contents stream.old) (S.contents stream.new) (take result bytes.now) }
{
    let mut sent = 0;
    while sent < bytes.len() {
        match write_again(stream, &bytes[sent..]) {
            Ok(0) | Err(_) => return sent,
            Ok(n) => sent += n,
        }
    }
    sent
}
