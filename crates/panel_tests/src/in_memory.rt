//! Objects in memory of which one call fails, and what they were given.

ghost use Rattle.std.specs.Prelude.{IfOk};
ghost use Rattle.ctl_net.specs.MemLink.{IsNewLink};

use ctl_io::{Bytes, MemSink};
use ctl_net::{LinkEvent, MemAcceptor, MemLink};
use std::alloc::{AllocError, Global};

/// A kind of call: of a net an opening, of an acceptor one for its next link, a link's reads and writes, writes of the trace at
/// a place, and a port's sends.
#[derive(Clone, Copy, PartialEq, Eq)]
pub(crate) enum Call {
    Opening,
    Link,
    Read,
    Write,
    Line(usize),
    Send,
}

/// The call that fails, by its number from 0 among those of its kind.
pub(crate) type Failing = (Call, u64);

pub(crate) const NOTHING: Failing = (Call::Read, u64::MAX);

/// The numbers of the calls of a kind that fail.
pub(crate) fn listed(alloc: Global, failing: Failing, kind: Call) -> Result<Vec<u64>, AllocError> {
    let (call, number) = failing;
    if call == kind {
        return Ok(vec![in alloc; number]?);
    }
    Ok(Vec::new(alloc))
}

/// A link over which these pieces come, an empty one for an idle read.
pub(crate) fn link_of(
    alloc: Global,
    pieces: &[&[u8]],
    failing: Failing,
) -> Result<MemLink, AllocError>
    ensures { IfOk result IsNewLink }
{
    let reads = listed(alloc, failing, Call::Read)?;
    let writes = listed(alloc, failing, Call::Write)?;
    MemLink::new(alloc, events_of(alloc, pieces)?, 1000, reads, writes)
}

/// A trace at a place.
pub(crate) fn trace_of(
    alloc: Global,
    failing: Failing,
    place: usize,
) -> Result<MemSink, AllocError> {
    MemSink::new(alloc, 1000, listed(alloc, failing, Call::Line(place))?)
}

fn events_of(alloc: Global, pieces: &[&[u8]]) -> Result<Vec<LinkEvent>, AllocError> {
    let mut events = Vec::new(alloc);
    for piece in pieces {
        events.push(event_of(alloc, piece)?)?;
    }
    Ok(events)
}

/// What comes with a piece.
pub(crate) fn event_of(alloc: Global, piece: &[u8]) -> Result<LinkEvent, AllocError> {
    if piece.is_empty() {
        return Ok(LinkEvent::Idle);
    }
    Ok(LinkEvent::Piece(Bytes::of(piece.to_vec(alloc)?)))
}

/// What was written to the first link that an acceptor was given back.
pub(crate) fn first_written(acceptor: &MemAcceptor) -> &[u8] {
    if let [link, ..] = acceptor.back() {
        return link.written();
    }
    &[]
}

/// The first so many bytes.
pub(crate) fn front(bytes: &[u8], count: usize) -> &[u8] {
    &bytes[..count.min(bytes.len())]
}
