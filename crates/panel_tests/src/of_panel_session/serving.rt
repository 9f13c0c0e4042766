//! Sessions that are served over links in memory: each call outside fails in turn, idle reads end them, and one follows another.

ghost use Rattle.std.specs.Prelude.{◌≡◌, ◌^◌, ◌≤◌, IfOk};
ghost use Rattle.panel_server.specs.Seats.{IsSeatOf};

use crate::examples::of_panel_server::locked;
use crate::in_memory::Call::{Line, Read, Write};
use crate::in_memory::{Failing, NOTHING, front, link_of, trace_of};
use crate::studio::plant_of;
use ctl_io::MemSink;
use ctl_net::MemLink;
use history_lock::{HistoryLock, Seat};
use panel_session::{Session, SessionEnd, serve_session};
use plant_config::{PanelNo, Plant};
use plant_core::PlantState;
use plant_names::Names;
use std::alloc::{AllocError, Global};
use std::process::Abort;
use std::sync::Wait;
use std::test::Fail;

const CONNECT_5: &[u8] = b"\x10\x02\x02\x00\x00\x05\x03\x05\xF1\x10\x03";

const INTERROGATE_5: &[u8] = b"\x10\x02\x01\x00\x00\x05\x04\xF6\x10\x03";

// Destination 5 is connected to source 3, and then 6 is asked for, which is parked.
const TWO_FRAMES: &[u8] =
    b"\x10\x02\x02\x00\x00\x05\x03\x05\xF1\x10\x03\x10\x02\x01\x00\x00\x06\x04\xF5\x10\x03";

// The ACK and the answer of each.
const ANSWERED: &[u8] = b"\x10\x06\x10\x02\x04\x00\x00\x05\x03\x05\xEF\x10\x03\
\x10\x06\x10\x02\x03\x00\x07\x06\x7F\x05\x6C\x10\x03";

const TRACED: &[u8] = b"0 told 0 0 0200000503 = 1002040000050305EF1003\n\
1 told 0 1 01000006 = 1002030007067F056C1003\n2 poll 0 2 0 = -\n";

// What two sessions are answered of which the first connects destination 5, and the second asks for it.
const CARRIED: &[u8] = b"\x10\x06\x10\x02\x04\x00\x00\x05\x03\x05\xEF\x10\x03\
\x10\x06\x10\x02\x03\x00\x00\x05\x03\x05\xF0\x10\x03";

// The polls of three idle reads.
const POLLED: &[u8] = b"0 poll 0 0 0 = -\n1 poll 0 0 1 = -\n2 poll 0 0 2 = -\n";

// A plant whose sessions end after three idle reads.
const HASTY: &[u8] = br#"
title = "Hasty"
server = { idle_limit = 3 }
level = [{ matrix = 0, level = 0, sources = 4, destinations = 8 }]
panel = [{ port = 9001, device = 1 }]
"#;

// The pieces that come over a link, an empty one for an idle read; and what is written and traced at the most.
struct Day {
    pieces: &'static [&'static [u8]],
    written: &'static [u8],
    traced: &'static [u8],
}

const FRAMES: Day = Day {
    pieces: &[TWO_FRAMES],
    written: ANSWERED,
    traced: TRACED,
};

const IDLE: Day = Day {
    pieces: &[b"", b"", b""],
    written: b"",
    traced: POLLED,
};

// What comes, what fails, and in how many turns the session is served; how it ends, and how many bytes were written and traced
// then.
type Case = (&'static Day, Failing, u32, SessionEnd, usize, usize);

const CASES: [Case; 21] = [
    // An ACK is a write of its own before its entry, and an entry is traced before its answer is written.
    (&FRAMES, NOTHING, 10, SessionEnd::Ended, 26, 109),
    (&FRAMES, (Read, 0), 10, SessionEnd::ReadFault, 0, 0),
    (&FRAMES, (Read, 1), 10, SessionEnd::ReadFault, 26, 109),
    (&FRAMES, (Read, 2), 10, SessionEnd::Ended, 26, 109),
    (&FRAMES, (Write, 0), 10, SessionEnd::WriteFault, 0, 0),
    (&FRAMES, (Write, 1), 10, SessionEnd::WriteFault, 2, 47),
    (&FRAMES, (Write, 2), 10, SessionEnd::WriteFault, 13, 47),
    (&FRAMES, (Write, 3), 10, SessionEnd::WriteFault, 15, 92),
    (&FRAMES, (Write, 4), 10, SessionEnd::Ended, 26, 109),
    (&FRAMES, (Line(0), 0), 10, SessionEnd::TraceFault, 2, 0),
    (&FRAMES, (Line(0), 1), 10, SessionEnd::TraceFault, 15, 47),
    (&FRAMES, (Line(0), 2), 10, SessionEnd::TraceFault, 26, 92),
    (&FRAMES, (Line(0), 3), 10, SessionEnd::Ended, 26, 109),
    (&FRAMES, NOTHING, 1, SessionEnd::Spent, 26, 109),
    (&FRAMES, (Read, 0), 0, SessionEnd::Spent, 0, 0),
    // What fails in a turn stands before the limit on idle reads, and that before the one on turns.
    (&IDLE, NOTHING, 10, SessionEnd::IdleOut, 0, 51),
    (&IDLE, NOTHING, 3, SessionEnd::IdleOut, 0, 51),
    (&IDLE, NOTHING, 2, SessionEnd::Spent, 0, 34),
    (&IDLE, (Line(0), 2), 3, SessionEnd::TraceFault, 0, 34),
    (&IDLE, (Line(0), 1), 2, SessionEnd::TraceFault, 0, 17),
    (&IDLE, (Read, 2), 3, SessionEnd::ReadFault, 0, 34),
];

// Serves a new session of panel 0 from a seat of the plant's lock.
fn serve<R: Wait>(
    rt: &R,
    alloc: Global,
    plant: &Plant,
    lock: &HistoryLock<PlantState>,
    seat: &mut Seat<PlantState>,
    link: &mut MemLink,
    trace: &mut MemSink,
    turns: u64,
) -> Result<SessionEnd, AllocError>
    requires seat { IsSeatOf plant.now lock.now seat.old }
    requires turns { turns ≤ 2 ^ 40 }
    ensures { IfOk result (λ end. IsSeatOf plant.now lock.now seat.new) }
{
    let names = Names::new(alloc, plant)?;
    let mut session = Session::start(alloc, plant, &names, PanelNo::of(0))?;
    Ok(serve_session(rt, &mut session, lock, seat, link, trace, turns))
}

// Serves a new session of panel 0 over a new lock.
fn serve_alone<R: Wait>(
    rt: &R,
    alloc: Global,
    plant: &Plant,
    link: &mut MemLink,
    trace: &mut MemSink,
    turns: u32,
) -> Result<SessionEnd, AllocError> {
    let (lock, mut seat) = locked(alloc, plant)?;
    serve(
        rt,
        alloc,
        plant,
        &lock,
        &mut seat,
        link,
        trace,
        u64::from(turns),
    )
}

// Whether a session goes as a case says.
fn goes_so<R: Wait>(rt: &R, alloc: Global, plant: &Plant, case: &Case) -> Result<bool, AllocError> {
    let (day, failing, turns, wanted, _, _) = *case;
    let mut link = link_of(alloc, day.pieces, failing)?;
    let mut trace = trace_of(alloc, failing, 0)?;
    let end = serve_alone(rt, alloc, plant, &mut link, &mut trace, turns)?;
    Ok(end == wanted && went_so(&link, &trace, case))
}

// Whether link and trace are left as a case says.
fn went_so(link: &MemLink, trace: &MemSink, case: &Case) -> bool {
    let (day, _, _, end, written, traced) = *case;
    counts(link, trace) == faults_of(end)
        && link.written() == front(day.written, written)
        && trace.written() == front(day.traced, traced)
}

// How many reads, writes and writes of the trace failed.
fn counts(link: &MemLink, trace: &MemSink) -> (u64, u64, u64) {
    (link.read_faults(), link.write_faults(), trace.faults())
}

// How many failed where a session ended so.
fn faults_of(end: SessionEnd) -> (u64, u64, u64) {
    (
        u64::from(end == SessionEnd::ReadFault),
        u64::from(end == SessionEnd::WriteFault),
        u64::from(end == SessionEnd::TraceFault),
    )
}

// A session goes as each case says.
fn all_go_so<R: Wait + Abort>(rt: &R, alloc: Global, plant: &Plant) -> Result<(), AllocError> {
    for (at, case) in CASES.iter().enumerate() {
        let is_so = goes_so(rt, alloc, plant, case)?;
        assert!(rt; is_so, "case {at}");
    }
    Ok(())
}

// Each call outside fails in turn, and idle reads end a session.
#[test]
fn a_session_goes_as_its_calls_go(rt: HostRuntime) -> Result<(), Fail> {
    let plant = plant_of(rt.alloc(), HASTY)?;
    Ok(all_go_so(&rt, rt.alloc(), &plant)?)
}

// What a new session of panel 0 is sent that sends one piece comes behind what was sent before.
fn said<R: Wait>(
    rt: &R,
    alloc: Global,
    plant: &Plant,
    lock: &HistoryLock<PlantState>,
    seat: &mut Seat<PlantState>,
    piece: &[u8],
    all: &mut Vec<u8>,
) -> Result<(), AllocError>
    requires seat { IsSeatOf plant.now lock.now seat.old }
    ensures { IfOk result (λ _. IsSeatOf plant.now lock.now seat.new) }
{
    let mut link = link_of(alloc, &[piece], NOTHING)?;
    let mut trace = trace_of(alloc, NOTHING, 0)?;
    let _ended = serve(rt, alloc, plant, lock, seat, &mut link, &mut trace, 10)?;
    all.extend_from_slice(link.written())
}

// What two sessions of panel 0 are sent, one after the other over one lock.
fn said_to_both<R: Wait>(
    rt: &R,
    alloc: Global,
    plant: &Plant,
    all: &mut Vec<u8>,
) -> Result<(), AllocError> {
    let (lock, mut seat) = locked(alloc, plant)?;
    said(rt, alloc, plant, &lock, &mut seat, CONNECT_5, all)?;
    said(rt, alloc, plant, &lock, &mut seat, INTERROGATE_5, all)
}

// What the first session connects the second is told.
#[test]
fn a_second_session_meets_the_same_plant(rt: HostRuntime) -> Result<(), Fail> {
    let mut all = Vec::new(rt.alloc());
    let plant = Plant::bench(rt.alloc())?;
    said_to_both(&rt, rt.alloc(), &plant, &mut all)?;
    assert!(rt; all.as_slice() == CARRIED);
    Ok(())
}
