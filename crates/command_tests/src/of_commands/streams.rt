//! Streams of display packets: made by a replay, and told in lines.

use super::{Failing, NEVER, NOTHING, ends_so, source_of, worked};
use ctl_io::{Bytes, MemFiles, MemSink, NamedSink};
use ctl_net::MemNet;
use std::alloc::{AllocError, Global};
use std::sync::Wait;
use std::test::Fail;
use std::thread::Threads;

const MONITOR: &[&str] = &["monitor", "script"];

// A packet with a pair in it, and its line.
const CAMERA: &[u8] = b"\xFE\x02\x0E\0\0\0\0\0\xFE\xFE\0\xC5\0\x04\0CAM3";

const CAMERA_LINES: &str =
    "screen 0 displays 1\nindex 254 lamps 1 1 0 brightness 3 text 43414D33\n";

// The words, the stream, what fails, the status and the output.
const TOLD: [(&[&str], &[u8], Failing, u8, &str); 8] = [
    (MONITOR, CAMERA, NOTHING, 0, CAMERA_LINES),
    (
        MONITOR,
        b"\xFE\x02\x0E\0\xFE\x02\x03\0\0\0\0",
        NOTHING,
        0,
        "bad Short\n",
    ),
    // Two packets that a replay of the script below sends.
    (
        MONITOR,
        BOTH,
        NOTHING,
        0,
        "screen 0 displays 1\nindex 1 lamps 0 0 0 brightness 3 text -\n\
         screen 0 displays 1\nindex 1 lamps 0 0 0 brightness 3 text 43414D31\n",
    ),
    // A rest at the end has no line.
    (MONITOR, b"\x07\xFE\x02\x0E\0", NOTHING, 0, ""),
    (&["monitor", "x"], CAMERA, NOTHING, 3, "file x missing\n"),
    (
        MONITOR,
        CAMERA,
        Failing { read: 0, ..NOTHING },
        3,
        "file script fault\n",
    ),
    (
        MONITOR,
        CAMERA,
        Failing {
            write: 0,
            ..NOTHING
        },
        7,
        "",
    ),
    (
        &["monitor", "bench"],
        CAMERA,
        NOTHING,
        3,
        "file bench missing\n",
    ),
];

#[test]
fn a_recorded_stream_is_told_in_lines(rt: HostRuntime) -> Result<(), Fail> {
    for (at, (words, stream, failing, status, output)) in TOLD.iter().enumerate() {
        let files = [("script", *stream)];
        let is_told = ends_so(&rt, rt.alloc(), words, &files, *failing, *status, output)?;
        assert!(rt; is_told, "{at}");
    }
    Ok(())
}

// One display, on the picture of destination 2.
const WALL: &[u8] = b"title = \"Wall\"\n\
    [[level]]\nmatrix = 0\nlevel = 0\nsources = 4\ndestinations = 3\nsource_names = [\"BLACK\", \"CAM1\"]\n\
    [[panel]]\ndevice = 1\nport = 9001\n\
    [[display]]\nscreen = 0\nindex = 1\nmatrix = 0\ndestination = 2\n";

const SCRIPT: &[u8] = b"show 0\ntake 0 0 0\tD2\tCAM1\nshow 0\n";

const FIRST: &[u8] = b"\xFE\x02\x0A\0\0\0\0\0\x01\0\xC0\0\0\0";

const BOTH: &[u8] = b"\xFE\x02\x0A\0\0\0\0\0\x01\0\xC0\0\0\0\
    \xFE\x02\x0E\0\0\0\0\0\x01\0\xC0\0\x04\0CAM1";

const STREAM: &[&str] = &["stream", "wall", "day", "made"];

// A script; by their numbers the openings of files and the writes of the stream's file that fail, and the write of the output that
// does; and then the status, the output, and what the stream's file has, if it was made.
#[derive(Clone, Copy)]
struct Row {
    words: &'static [&'static str],
    script: &'static [u8],
    unopened: &'static [u64],
    unmade: &'static [u64],
    unwritten: u64,
    status: u8,
    output: &'static str,
    made: Option<&'static [u8]>,
}

const STREAMED: Row = Row {
    words: STREAM,
    script: SCRIPT,
    unopened: &[],
    unmade: &[],
    unwritten: NEVER,
    status: 0,
    output: "* 0 0A00000000000100C0000000\n< 0 10061002040000020105F41003\n* 0 0E00000000000100C000040043414D31\n",
    made: Some(BOTH),
};

const FAULT: Row = Row {
    status: 3,
    output: "file made fault\n",
    made: None,
    ..STREAMED
};

const ROWS: [Row; 9] = [
    STREAMED,
    // Each write of the stream fails: the lines before it are written.
    Row {
        unmade: &[0],
        made: Some(b""),
        ..FAULT
    },
    Row {
        unmade: &[1],
        output: "* 0 0A00000000000100C0000000\n< 0 10061002040000020105F41003\nfile made fault\n",
        made: Some(FIRST),
        ..FAULT
    },
    // A write of the output that fails is told, whatever else does.
    Row {
        unwritten: 0,
        status: 7,
        output: "",
        ..STREAMED
    },
    Row {
        unmade: &[1],
        unwritten: 0,
        status: 7,
        output: "",
        made: Some(FIRST),
        ..STREAMED
    },
    // The file can't be made, which is told before a line that is refused.
    Row {
        script: b"show 9\n",
        unopened: &[2],
        ..FAULT
    },
    Row {
        script: b"show 0\nshow 9\n",
        status: 5,
        output: "script line 2 refused\n",
        made: Some(b""),
        ..STREAMED
    },
    Row {
        words: &["stream", "wall", "nowhere", "made"],
        output: "file nowhere missing\n",
        ..FAULT
    },
    Row {
        words: &["stream", "nowhere", "day", "made"],
        output: "file nowhere missing\n",
        ..FAULT
    },
];

// The files of the plant and the script, and the one that the stream may be made in.
fn files_of(alloc: Global, row: &Row) -> Result<MemFiles, AllocError> {
    let plant = source_of(alloc, "wall", WALL, NEVER)?;
    let script = source_of(alloc, "day", row.script, NEVER)?;
    let made = NamedSink {
        name: Bytes::of(b"made".to_vec(alloc)?),
        sink: MemSink::new(alloc, 1000, row.unmade.to_vec(alloc)?)?,
    };
    let sources = vec![in alloc; plant, script]?;
    let sinks = vec![in alloc; made]?;
    MemFiles::new(
        alloc,
        sources,
        sinks,
        Vec::new(alloc),
        3,
        row.unopened.to_vec(alloc)?,
        0,
        0,
        0,
    )
}

// Whether the sinks that came back are just one with these bytes, or none.
fn have_bytes(sinks: &[NamedSink], bytes: Option<&[u8]>) -> bool {
    match (sinks, bytes) {
        ([], None) => true,
        ([made], Some(bytes)) => made.sink.written() == bytes,
        _ => false,
    }
}

// Whether a replay with a stream ends as a row says.
fn is_streamed<R: Threads + Wait + Sync>(
    rt: &R,
    alloc: Global,
    row: &Row,
) -> Result<bool, AllocError> {
    let mut files = files_of(alloc, row)?;
    let mut net = MemNet::new(alloc, Vec::new(alloc), Vec::new(alloc), 0, Vec::new(alloc))?;
    let (status, out) = worked(rt, alloc, row.words, &mut files, &mut net, row.unwritten)?;
    Ok(
        status == row.status
            && out.written() == row.output.as_bytes()
            && have_bytes(files.sinks_back(), row.made),
    )
}

#[test]
fn replays_make_streams(rt: HostRuntime) -> Result<(), Fail> {
    for (at, row) in ROWS.iter().enumerate() {
        assert!(rt; is_streamed(&rt, rt.alloc(), row)?, "{at}");
    }
    Ok(())
}
