//! The reader of a line.

use crate::studio::plant_of;
use plant_config::{PanelNo, Plant};
use plant_core::Request;
use std::alloc::{AllocError, Global};
use std::process::Abort;
use std::test::Fail;
use swp08_messages::{Message, Point};
use trace_lines::trace_request;

// The greatest number of a trace.
const LIMIT: u64 = 1 << 62;

// Two panels, and a display on screen 65534.
const HALL: &[u8] = br#"
title = "Hall"
[[level]]
matrix = 0
level = 0
sources = 24
destinations = 32
[[display]]
screen = 65534
index = 0
matrix = 0
destination = 3
[[panel]]
device = 1
port = 9001
[[panel]]
device = 2
port = 9002
"#;

const CONNECT: Message = Message::Connect {
    at: Point {
        matrix: 0,
        level: 0,
        dest: 5,
    },
    source: Some(3),
};

// Each form of a line with the greatest numbers, and each form of a reply. The reply isn't held to the request: whether it is
// the plant's own is for others to find.
fn are_read(rt: &impl Abort, plant: &Plant) {
    let panel = PanelNo::of(1);
    let told = Request::Told {
        panel,
        item: LIMIT,
        message: CONNECT,
    };
    let line = b"0 told 1 4611686018427387904 0200000503 = 1002040000050305EF1003";
    assert!(rt; trace_request(plant, line) == Some((0, told)));
    let poll = Request::Poll {
        panel,
        at: 0,
        turn: LIMIT,
    };
    let line = b"10 poll 1 0 4611686018427387904 = finished";
    assert!(rt; trace_request(plant, line) == Some((10, poll)));
    let left = Request::Leave { panel };
    let line = b"4611686018427387904 leave 1 = -";
    assert!(rt; trace_request(plant, line) == Some((LIMIT, left)));
}

fn shows_are_read(rt: &impl Abort, plant: &Plant) {
    let show = Request::DisplayPoll {
        screen: 65534,
        refresh: false,
    };
    assert!(rt; trace_request(plant, b"3 show 65534 0 = 0E00") == Some((3, show)));
    let refresh = Request::DisplayPoll {
        screen: 65534,
        refresh: true,
    };
    assert!(rt; trace_request(plant, b"4 show 65534 1 = -") == Some((4, refresh)));
}

#[test]
fn each_form_of_a_line_is_read(rt: HostRuntime) -> Result<(), Fail> {
    let plant = plant_of(rt.alloc(), HALL)?;
    are_read(&rt, &plant);
    shows_are_read(&rt, &plant);
    Ok(())
}

// Lines that tell no entry of the plant.
const REFUSED: &[&[u8]] = &[
    // A zero in front, no digit, and more than 2^62.
    b"01 leave 1 = -",
    b"0 leave x = -",
    b"4611686018427387905 leave 1 = -",
    b"0 told 0 4611686018427387905 0200000503 = -",
    b"0 poll 0 0 4611686018427387905 = -",
    // Lower case, half a byte, another spelling of DATA, and messages that ask nothing of the plant.
    b"0 told 0 0 020000050a = -",
    b"0 told 0 0 020000050 = -",
    b"0 told 0 0 0200080503 = -",
    b"0 told 0 0 0A00000500 = -",
    b"0 told 0 0 0300000503 = -",
    b"0 told 0 0 640000 = -",
    b"0 told 0 0 FF = -",
    // A panel past the plant, and a screen without a display.
    b"0 leave 2 = -",
    b"0 show 1 0 = -",
    // A refresh that is neither 0 nor 1, and requests that lack something or have something else.
    b"0 show 65534 2 = -",
    b"0 poll 0 0 = -",
    b"0 leave 1 1 = -",
    b"0 Leave 1 = -",
    // No line, no reply, other replies, two spaces, and a CR.
    b"",
    b"0 leave 1 = ",
    b"0 leave 1 = 1",
    b"0 leave 1 = 1002ef",
    b"0 leave 1 =  -",
    b"0 leave 1 = -\r",
];

fn are_refused(rt: &impl Abort, plant: &Plant) {
    for line in REFUSED {
        assert!(rt; trace_request(plant, line) == None, "of {line:?}");
    }
}

#[test]
fn other_lines_are_refused(rt: HostRuntime) -> Result<(), Fail> {
    let plant = plant_of(rt.alloc(), HALL)?;
    are_refused(&rt, &plant);
    Ok(())
}

// A line of so many bytes, most of them digits of its reply.
fn long_line(alloc: Global, length: usize) -> Result<Vec<u8>, AllocError> {
    let mut line = b"0 leave 1 = ".to_vec(alloc)?;
    for _ in line.len()..length {
        line.push(b'A')?;
    }
    Ok(line)
}

// What such a line tells.
fn told_in(
    alloc: Global,
    plant: &Plant,
    length: usize,
) -> Result<Option<(u64, Request)>, AllocError> {
    let line = long_line(alloc, length)?;
    Ok(trace_request(plant, &line))
}

#[test]
fn a_line_has_65536_bytes_at_most(rt: HostRuntime) -> Result<(), Fail> {
    let plant = plant_of(rt.alloc(), HALL)?;
    let panel = PanelNo::of(1);
    let left = Some((0, Request::Leave { panel }));
    assert!(rt; told_in(rt.alloc(), &plant, 65_536)? == left);
    assert!(rt; told_in(rt.alloc(), &plant, 65_537)? == None);
    Ok(())
}
