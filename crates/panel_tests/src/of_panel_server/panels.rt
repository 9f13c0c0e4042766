//! The worker of a panel, of which each call outside fails in turn.

use super::ANSWER;
use crate::examples::of_panel_server::locked;
use crate::in_memory::Call::{Line, Link, Read, Write};
use crate::in_memory::{Failing, NOTHING, first_written, front, link_of, listed, trace_of};
use crate::studio::plant_of;
use ctl_io::MemSink;
use ctl_net::{MemAcceptor, OpenGate};
use panel_server::{PanelDone, serve_panel};
use panel_session::Session;
use plant_config::{PanelNo, Plant};
use plant_names::Names;
use std::alloc::{AllocError, Global};
use std::process::Abort;
use std::sync::Wait;
use std::test::Fail;

// A bench with one panel, of which an idle read ends a session.
const BENCH: &[u8] = br#"
title = "Bench"
server = { idle_limit = 1 }
level = [{ matrix = 0, level = 0, sources = 32, destinations = 32 }]
panel = [{ port = 9001, device = 1 }]
"#;

// What comes over the first link, an interrogate in two pieces, and over the second, an idle read.
const CUT: &[&[u8]] = &[b"\x10\x02\x01\x00", b"\x00\x05\x04\xF6\x10\x03"];

const IDLE: &[&[u8]] = &[b""];

// The lines of both sessions and of the leave.
const LINES: &[u8] = b"0 poll 0 0 0 = -\n1 told 0 0 01000005 = 1002030007057F056D1003\n\
2 poll 0 1 1 = -\n3 poll 0 0 0 = -\n4 leave 0 = -\n";

// Those of the first session and of the leave.
const ONE: &[u8] = b"0 poll 0 0 0 = -\n1 told 0 0 01000005 = 1002030007057F056D1003\n\
2 poll 0 1 1 = -\n3 leave 0 = -\n";

// Those of both sessions, if the first is lost before its first piece, before its answer, or with it.
const UNHEARD: &[u8] = b"0 poll 0 0 0 = -\n1 leave 0 = -\n";

const UNASKED: &[u8] = b"0 poll 0 0 0 = -\n1 poll 0 0 0 = -\n2 leave 0 = -\n";

const UNTOLD: &[u8] = b"0 poll 0 0 0 = -\n1 told 0 0 01000005 = 1002030007057F056D1003\n\
2 poll 0 0 0 = -\n3 leave 0 = -\n";

// How many sessions there were, how many of them ended by a fault of their link and by a limit, and whether a link was refused
// and the trace failed.
type Done = (u64, u64, u64, bool, bool);

// What fails, of the first link if it is one of a link's calls; and then what was done, how many bytes were written to the
// first link, and what was traced, of which so many bytes.
type Case = (Failing, Done, usize, &'static [u8], usize);

const CASES: [Case; 18] = [
    (NOTHING, (2, 0, 1, false, false), 13, LINES, 110),
    ((Link, 0), (0, 0, 0, true, false), 0, b"0 leave 0 = -\n", 14),
    ((Link, 1), (1, 0, 0, true, false), 13, ONE, 93),
    ((Link, 2), (2, 0, 1, true, false), 13, LINES, 110),
    ((Link, 3), (2, 0, 1, false, false), 13, LINES, 110),
    ((Read, 0), (2, 1, 1, false, false), 0, UNHEARD, 31),
    ((Read, 1), (2, 1, 1, false, false), 0, UNASKED, 48),
    ((Read, 2), (2, 1, 1, false, false), 13, LINES, 110),
    ((Read, 3), (2, 0, 1, false, false), 13, LINES, 110),
    ((Write, 0), (2, 1, 1, false, false), 0, UNASKED, 48),
    ((Write, 1), (2, 1, 1, false, false), 2, UNTOLD, 93),
    ((Write, 2), (2, 0, 1, false, false), 13, LINES, 110),
    ((Line(0), 0), (1, 0, 0, false, true), 0, LINES, 0),
    ((Line(0), 1), (1, 0, 0, false, true), 2, LINES, 17),
    ((Line(0), 2), (1, 0, 0, false, true), 13, LINES, 62),
    ((Line(0), 3), (2, 0, 0, false, true), 13, LINES, 79),
    ((Line(0), 4), (2, 0, 1, false, true), 13, LINES, 96),
    ((Line(0), 5), (2, 0, 1, false, false), 13, LINES, 110),
];

// An acceptor of both links.
fn acceptor_of(alloc: Global, failing: Failing) -> Result<MemAcceptor, AllocError> {
    let first = link_of(alloc, CUT, failing)?;
    let second = link_of(alloc, IDLE, NOTHING)?;
    let links = vec![in alloc; first, second]?;
    MemAcceptor::new(alloc, links, 2, listed(alloc, failing, Link)?)
}

// What the worker of the plant's first panel did.
fn served<W: Wait>(
    rt: &W,
    alloc: Global,
    plant: &Plant,
    acceptor: &mut MemAcceptor,
    trace: &mut MemSink,
) -> Result<PanelDone, AllocError> {
    if plant.panels().is_empty() {
        return Err(AllocError);
    }
    let names = Names::new(alloc, plant)?;
    let mut session = Session::start(alloc, plant, &names, PanelNo::of(0))?;
    let (lock, mut seat) = locked(alloc, plant)?;
    Ok(serve_panel(
        rt,
        &mut session,
        &lock,
        &mut seat,
        acceptor,
        &OpenGate,
        trace,
        100,
    ))
}

// Whether the worker does as a case says, and each link that was handed out came back.
fn serves_so<W: Wait>(
    rt: &W,
    alloc: Global,
    plant: &Plant,
    case: &Case,
) -> Result<bool, AllocError> {
    let (failing, _, _, _, _) = *case;
    let mut acceptor = acceptor_of(alloc, failing)?;
    let mut trace = trace_of(alloc, failing, 0)?;
    let done = served(rt, alloc, plant, &mut acceptor, &mut trace)?;
    Ok(served_so(&done, &acceptor, &trace, case))
}

// Whether a worker has done as a case says.
fn served_so(done: &PanelDone, acceptor: &MemAcceptor, trace: &MemSink, case: &Case) -> bool {
    let (_, wanted, written, lines, traced) = *case;
    figures(done) == wanted
        && acceptor.back().len() as u64 == done.sessions
        && first_written(acceptor) == front(ANSWER, written)
        && trace.written() == front(lines, traced)
}

fn figures(done: &PanelDone) -> Done {
    (
        done.sessions,
        done.link_faults,
        done.limits,
        done.refused,
        done.trace_failed,
    )
}

// It does as each case says.
fn all_serve_so<W: Wait + Abort>(rt: &W, alloc: Global, plant: &Plant) -> Result<(), AllocError> {
    for (at, case) in CASES.iter().enumerate() {
        let is_so = serves_so(rt, alloc, plant, case)?;
        assert!(rt; is_so, "case {at}");
    }
    Ok(())
}

#[test]
fn a_panel_is_served_as_its_calls_go(rt: HostRuntime) -> Result<(), Fail> {
    let plant = plant_of(rt.alloc(), BENCH)?;
    Ok(all_serve_so(&rt, rt.alloc(), &plant)?)
}
