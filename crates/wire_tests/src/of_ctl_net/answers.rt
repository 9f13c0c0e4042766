//! What a link answers to each answer of the system.

ghost use Rattle.std.specs.Prelude.{◌≤◌, IfOk};

use ctl_io::{Sink, Write};
use ctl_net::{Link, LinkRead, TcpLink};
use std::alloc::{AllocError, Global};
use std::io::{self, ErrorKind};
use std::test::Fail;

// A connection with these answers to its reads and writes, each a count of bytes or an error, and an end after them.
#[derive(Drop)]
struct Answering<'a> {
    answers: &'a [Result<usize, ErrorKind>],
}

impl Answering<'_> {
    fn next(&mut self, room: usize) -> io::Result<usize>
        ensures { IfOk result (λ n. n ≤ room) }
    {
        let [first, rest @ ..] = self.answers else {
            return Ok(0);
        };
        self.answers = rest;
        match *first {
            Ok(n) => Ok(n.min(room)),
            Err(kind) => Err(io::Error::from(kind)),
        }
    }
}

impl io::Read for Answering<'_> {
    fn read(&mut self, into: &mut [u8]) -> io::Result<usize> {
        self.next(into.len())
    }
}

impl io::Write for Answering<'_> {
    fn write(&mut self, bytes: &[u8]) -> io::Result<usize> {
        self.next(bytes.len())
    }

    fn flush(&mut self) -> io::Result<()> {
        Ok(())
    }
}

// What a link answers to a read, and to a write, where the system interrupts it first.
fn read_of(alloc: Global, answer: Result<usize, ErrorKind>) -> LinkRead {
    let answers = [Err(ErrorKind::Interrupted), answer];
    over(alloc, &answers).read(&mut [0; 4])
}

fn written_of(alloc: Global, answer: Result<usize, ErrorKind>) -> Write {
    let answers = [Err(ErrorKind::Interrupted), answer];
    over(alloc, &answers).write(b"abc")
}

// A link without room, which sends at once.
fn over(alloc: Global, answers: &[Result<usize, ErrorKind>]) -> TcpLink<Answering<'_>> {
    TcpLink::over(Answering { answers }, Vec::new(alloc))
}

// What a link with room for 4 bytes answers to a read behind a write of 3, where the system answers so to what is sent first,
// and its count of failed reads.
fn read_behind(
    alloc: Global,
    answers: &[Result<usize, ErrorKind>],
) -> Result<(LinkRead, u64), AllocError> {
    let room = Vec::with_capacity(alloc, 4)?;
    let mut link = TcpLink::over(Answering { answers }, room);
    link.write(b"abc");
    let read = link.read(&mut [0; 4]);
    Ok((read, link.read_faults()))
}

const READS: [(Result<usize, ErrorKind>, LinkRead); 5] = [
    (Ok(2), LinkRead::Got(2)),
    (Ok(0), LinkRead::End),
    (Err(ErrorKind::WouldBlock), LinkRead::Idle),
    (Err(ErrorKind::TimedOut), LinkRead::Idle),
    (Err(ErrorKind::ConnectionReset), LinkRead::Failed),
];

const WRITES: [(Result<usize, ErrorKind>, Write); 3] = [
    (Ok(2), Write::Took(2)),
    (Ok(0), Write::Failed),
    (Err(ErrorKind::BrokenPipe), Write::Failed),
];

#[test]
fn a_read_is_answered_by_its_kind(rt: HostRuntime) {
    for (answer, read) in READS {
        assert!(rt; read_of(rt.alloc(), answer) == read);
    }
}

#[test]
fn a_write_is_answered_by_its_kind(rt: HostRuntime) {
    for (answer, written) in WRITES {
        assert!(rt; written_of(rt.alloc(), answer) == written);
    }
}

#[test]
fn a_failed_send_is_a_failed_read(rt: HostRuntime) -> Result<(), Fail> {
    let sent = read_behind(rt.alloc(), &[Ok(2), Ok(1), Ok(2)])?;
    let failed = read_behind(rt.alloc(), &[Ok(2), Err(ErrorKind::BrokenPipe), Ok(2)])?;
    assert!(rt; sent == (LinkRead::Got(2), 0));
    assert!(rt; failed == (LinkRead::Failed, 1));
    Ok(())
}
