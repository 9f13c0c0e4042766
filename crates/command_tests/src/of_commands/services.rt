//! Plants that are served over a net in memory, with their traces in files.

ghost use Rattle.std.specs.Prelude.{IfOk};
ghost use Rattle.ctl_io.specs.Memory.{IsNewSink};
ghost use Rattle.ctl_io.specs.MemFiles.{AreNewSinks};
ghost use Rattle.ctl_net.specs.MemNet.{AreNewAcceptors};
ghost use Rattle.ctl_net.specs.MemAcceptor.{IsNewAcceptor};

use super::{NEVER, source_of, worked};
use ctl_io::{Bytes, MemFiles, MemSink, NamedSink};
use ctl_net::{LinkEvent, MemAcceptor, MemLink, MemNet, MemPort};
use std::alloc::{AllocError, Global};
use std::sync::Wait;
use std::test::Fail;
use std::thread::Threads;

// Two panels, whose sessions end with their third idle read.
const SHORT: &[u8] = b"title = \"Short\"\n\
    [server]\nidle_limit = 3\n\
    [[level]]\nmatrix = 0\nlevel = 0\nsources = 16\ndestinations = 32\n\
    [[panel]]\ndevice = 1\nport = 9001\n\
    [[panel]]\ndevice = 2\nport = 9002\n";

// Destination 5 is connected to source 3.
const CONNECT: &[&[u8]] = &[b"\x10\x02\x02\x00\x00\x05\x03\x05\xF1\x10\x03"];

const IDLE: &[&[u8]] = &[b"", b"", b""];

// What comes over the one link of panel 0, of which an empty piece is an idle read, and nothing comes over that of panel 1; by
// their numbers the openings of the net that are refused, the reads of panel 1's link, the openings of files and the writes of
// panel 1's trace that fail; and then the status, the output, and the names of the traces that were given back.
struct Row {
    words: &'static [&'static str],
    pieces: &'static [&'static [u8]],
    refused: &'static [u64],
    unread: &'static [u64],
    unopened: &'static [u64],
    untraced: &'static [u64],
    status: u8,
    output: &'static str,
    traces: &'static [&'static str],
}

const TRACED: &[&str] = &["serve", "short", "day"];

const ALL: &[&str] = &["day.d", "day.1", "day.0"];

// One connect, one poll and two leaves.
const SERVED: Row = Row {
    words: TRACED,
    pieces: CONNECT,
    refused: &[],
    unread: &[],
    unopened: &[],
    untraced: &[],
    status: 0,
    output: "sessions 2\nentries 4\n",
    traces: ALL,
};

// Three polls and two leaves.
const LIMITED: Row = Row {
    pieces: IDLE,
    status: 9,
    output: "sessions 2\nentries 5\nsession limits met\n",
    ..SERVED
};

const REFUSED: Row = Row {
    status: 8,
    output: "net fault\n",
    ..SERVED
};

const UNOPENED: Row = Row {
    status: 3,
    traces: &[],
    ..SERVED
};

const ROWS: [Row; 14] = [
    SERVED,
    Row {
        words: &["serve", "bench"],
        traces: &[],
        ..SERVED
    },
    LIMITED,
    // A fault of the net comes before a limit, and a trace that failed before both.
    Row {
        unread: &[0],
        status: 8,
        output: "sessions 2\nentries 5\nnet fault\n",
        ..LIMITED
    },
    Row {
        untraced: &[0],
        status: 3,
        output: "sessions 2\nentries 5\nfile day.1 fault\n",
        ..LIMITED
    },
    Row {
        unread: &[0],
        untraced: &[0],
        status: 3,
        output: "sessions 2\nentries 5\nfile day.1 fault\n",
        ..LIMITED
    },
    // Each opening is refused once: that of an acceptor, of the other one, and of the display port.
    Row {
        refused: &[0],
        ..REFUSED
    },
    Row {
        refused: &[1],
        ..REFUSED
    },
    Row {
        refused: &[2],
        ..REFUSED
    },
    // So is each file: that of the plant, and of a trace, where those that were made before are given back.
    Row {
        unopened: &[0],
        output: "file short fault\n",
        ..UNOPENED
    },
    Row {
        unopened: &[1],
        output: "file day.0 fault\n",
        ..UNOPENED
    },
    Row {
        unopened: &[2],
        output: "file day.1 fault\n",
        traces: &["day.0"],
        ..UNOPENED
    },
    Row {
        unopened: &[3],
        output: "file day.d fault\n",
        traces: &["day.1", "day.0"],
        ..UNOPENED
    },
    Row {
        words: &["serve", "nowhere", "day"],
        output: "file nowhere missing\n",
        ..UNOPENED
    },
];

// A sink of this name, of which these writes fail.
fn sink(alloc: Global, name: &[u8], failing: &[u64]) -> Result<NamedSink, AllocError>
    ensures { IfOk result (λ entry. IsNewSink entry.sink) }
{
    let sink = MemSink::new(alloc, 1000, failing.to_vec(alloc)?)?;
    Ok(NamedSink {
        name: Bytes::of(name.to_vec(alloc)?),
        sink,
    })
}

// Those that the traces may be made in.
fn sinks_of(alloc: Global, untraced: &[u64]) -> Result<Vec<NamedSink>, AllocError>
    ensures { IfOk result (λ sinks. AreNewSinks sinks.items) }
{
    let first = sink(alloc, b"day.0", &[])?;
    let second = sink(alloc, b"day.1", untraced)?;
    let displays = sink(alloc, b"day.d", &[])?;
    Ok(vec![in alloc; first, second, displays]?)
}

// These and the plant's file.
fn files_of(alloc: Global, row: &Row) -> Result<MemFiles, AllocError> {
    let plant = source_of(alloc, "short", SHORT, NEVER)?;
    let sources = vec![in alloc; plant]?;
    let sinks = sinks_of(alloc, row.untraced)?;
    MemFiles::new(
        alloc,
        sources,
        sinks,
        Vec::new(alloc),
        4,
        row.unopened.to_vec(alloc)?,
        0,
        0,
        0,
    )
}

// What comes over a link, an empty piece for an idle read.
fn events_of(alloc: Global, pieces: &[&[u8]]) -> Result<Vec<LinkEvent>, AllocError> {
    let mut events = Vec::new(alloc);
    for piece in pieces {
        events.push(if piece.is_empty() {
            LinkEvent::Idle
        } else {
            LinkEvent::Piece(Bytes::of(piece.to_vec(alloc)?))
        })?;
    }
    Ok(events)
}

// An acceptor of one link, over which these pieces come.
fn acceptor(alloc: Global, pieces: &[&[u8]], unread: &[u64]) -> Result<MemAcceptor, AllocError>
    ensures { IfOk result IsNewAcceptor }
{
    let events = events_of(alloc, pieces)?;
    let link = MemLink::new(alloc, events, 100, unread.to_vec(alloc)?, Vec::new(alloc))?;
    MemAcceptor::new(alloc, vec![in alloc; link]?, 1, Vec::new(alloc))
}

// The acceptors of both panels.
fn acceptors_of(alloc: Global, row: &Row) -> Result<Vec<MemAcceptor>, AllocError>
    ensures { IfOk result (λ acceptors. AreNewAcceptors acceptors.items) }
{
    let first = acceptor(alloc, row.pieces, &[])?;
    let second = acceptor(alloc, &[], row.unread)?;
    Ok(vec![in alloc; first, second]?)
}

fn net_of(alloc: Global, row: &Row) -> Result<MemNet, AllocError> {
    let acceptors = acceptors_of(alloc, row)?;
    let ports = vec![in alloc; MemPort::new(alloc, 0, Vec::new(alloc))?]?;
    MemNet::new(alloc, acceptors, ports, 3, row.refused.to_vec(alloc)?)
}

fn have_names(sinks: &[NamedSink], names: &[&str]) -> bool {
    for (sink, name) in sinks.iter().zip(names) {
        if sink.name.as_slice() != name.as_bytes() {
            return false;
        }
    }
    sinks.len() == names.len()
}

// Whether a service ends as a row says.
fn is_served<R: Threads + Wait + Sync>(
    rt: &R,
    alloc: Global,
    row: &Row,
) -> Result<bool, AllocError> {
    let mut files = files_of(alloc, row)?;
    let mut net = net_of(alloc, row)?;
    let (status, out) = worked(rt, alloc, row.words, &mut files, &mut net, NEVER)?;
    Ok(
        status == row.status
            && out.written() == row.output.as_bytes()
            && have_names(files.sinks_back(), row.traces),
    )
}

#[test]
fn plants_are_served(rt: HostRuntime) -> Result<(), Fail> {
    for (at, row) in ROWS.iter().enumerate() {
        assert!(rt; is_served(&rt, rt.alloc(), row)?, "{at}");
    }
    Ok(())
}
