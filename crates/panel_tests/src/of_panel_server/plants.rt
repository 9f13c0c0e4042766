//! Plants that are served over a net in memory, of which each call outside fails in turn, and panels that are served at the
//! same time.

ghost use Rattle.std.specs.Prelude.{◌≡◌, IfOk, length};
ghost use Rattle.ctl_net.specs.MemAcceptor.{IsNewAcceptor};
ghost use Rattle.ctl_net.specs.MemNet.{AreNewAcceptors};

use super::{ANSWER, INTERROGATE};
use crate::holding_gate::HoldingGate;
use crate::in_memory::Call::{Line, Link, Opening, Read, Write};
use crate::in_memory::{Failing, NOTHING, first_written, front, link_of, listed, trace_of};
use crate::studio::plant_of;
use ctl_io::MemSink;
use ctl_net::{ClosedAcceptor, Gate, MemAcceptor, MemNet, MemPort, OpenGate};
use panel_server::{PlantDone, ServeFault, serve};
use plant_config::Plant;
use plant_names::Names;
use std::alloc::{AllocError, Global};
use std::process::Abort;
use std::sync::Wait;
use std::test::Fail;
use std::thread::Threads;

// Two panels, whose sessions end after three idle reads.
const HASTY: &[u8] = br#"
title = "Hasty"
server = { idle_limit = 3 }
level = [{ matrix = 0, level = 0, sources = 32, destinations = 32 }]
panel = [{ port = 9001, device = 1 }, { port = 9002, device = 2 }]
"#;

// What is told of a plant that was served: how many sessions there were, how many entries, limits and faults of the net, and
// the first trace that failed.
pub(super) type Told = Result<(u64, u64, u64, u64, Option<u32>), ServeFault>;

const REFUSED: Told = Err(ServeFault::NetFault);

// The pieces that come over the one link of each panel, an empty one for an idle read; and the answer.
struct Day {
    pieces: [&'static [&'static [u8]]; 2],
    answer: &'static [u8],
}

// One connect, one poll and two leaves.
const CONNECT: Day = Day {
    pieces: [&[b"\x10\x02\x02\x00\x00\x05\x03\x05\xF1\x10\x03"], &[]],
    answer: b"\x10\x06\x10\x02\x04\x00\x00\x05\x03\x05\xEF\x10\x03",
};

const IDLE: Day = Day {
    pieces: [&[b"", b"", b""], &[]],
    answer: b"",
};

// Both panels ask for a destination.
const ASK: Day = Day {
    pieces: [&[INTERROGATE], &[INTERROGATE]],
    answer: ANSWER,
};

// What comes, and what fails: openings, traces, and of panel 0 the calls of its acceptor and of its link; and then what is told,
// how many bytes of the answer were written to each panel, and how many were traced of the first.
type Case = (&'static Day, Failing, Told, [usize; 2], usize);

// Whatever fails of one panel, the other is answered.
const CASES: &[Case] = &[
    (&CONNECT, NOTHING, Ok((2, 4, 0, 0, None)), [13, 0], 78),
    (&IDLE, NOTHING, Ok((2, 5, 1, 0, None)), [0, 0], 65),
    (&ASK, NOTHING, Ok((2, 6, 0, 0, None)), [13, 13], 76),
    (&ASK, (Opening, 0), REFUSED, [0, 0], 0),
    (&ASK, (Opening, 1), REFUSED, [0, 0], 0),
    (&ASK, (Opening, 2), REFUSED, [0, 0], 0),
    (&ASK, (Opening, 3), Ok((2, 6, 0, 0, None)), [13, 13], 76),
    (&ASK, (Link, 0), Ok((1, 4, 0, 1, None)), [0, 13], 14),
    (&ASK, (Link, 1), Ok((2, 6, 0, 1, None)), [13, 13], 76),
    (&ASK, (Link, 2), Ok((2, 6, 0, 0, None)), [13, 13], 76),
    (&ASK, (Read, 0), Ok((2, 4, 0, 1, None)), [0, 13], 14),
    (&ASK, (Read, 1), Ok((2, 6, 0, 1, None)), [13, 13], 76),
    (&ASK, (Read, 2), Ok((2, 6, 0, 0, None)), [13, 13], 76),
    (&ASK, (Write, 0), Ok((2, 4, 0, 1, None)), [0, 13], 14),
    (&ASK, (Write, 1), Ok((2, 5, 0, 1, None)), [2, 13], 59),
    (&ASK, (Write, 2), Ok((2, 6, 0, 0, None)), [13, 13], 76),
    (&ASK, (Line(0), 0), Ok((2, 5, 0, 0, Some(0))), [2, 13], 0),
    (&ASK, (Line(0), 1), Ok((2, 6, 0, 0, Some(0))), [13, 13], 45),
    (&ASK, (Line(0), 2), Ok((2, 6, 0, 0, Some(0))), [13, 13], 62),
    (&ASK, (Line(0), 3), Ok((2, 6, 0, 0, None)), [13, 13], 76),
    (&ASK, (Line(1), 0), Ok((2, 5, 0, 0, Some(1))), [13, 2], 76),
    (&ASK, (Line(2), 0), Ok((2, 6, 0, 0, None)), [13, 13], 76),
];

// An acceptor with one link, over which these pieces come.
pub(super) fn acceptor_of(
    alloc: Global,
    pieces: &[&[u8]],
    failing: Failing,
) -> Result<MemAcceptor, AllocError>
    ensures { IfOk result IsNewAcceptor }
{
    let link = link_of(alloc, pieces, failing)?;
    MemAcceptor::new(
        alloc,
        vec![in alloc; link]?,
        1,
        listed(alloc, failing, Link)?,
    )
}

// The acceptors of both panels.
fn acceptors_of(alloc: Global, day: &Day, failing: Failing) -> Result<Vec<MemAcceptor>, AllocError>
    ensures { IfOk result (λ acceptors. AreNewAcceptors acceptors.items) }
{
    let first = acceptor_of(alloc, day.pieces[0], failing)?;
    let second = acceptor_of(alloc, day.pieces[1], NOTHING)?;
    Ok(vec![in alloc; first, second]?)
}

// A net for both panels.
fn net_of(alloc: Global, day: &Day, failing: Failing) -> Result<MemNet, AllocError> {
    let ports = vec![in alloc; MemPort::new(alloc, 0, Vec::new(alloc))?]?;
    let refused = listed(alloc, failing, Opening)?;
    MemNet::new(alloc, acceptors_of(alloc, day, failing)?, ports, 3, refused)
}

// So many traces.
fn traces_of(alloc: Global, count: usize, failing: Failing) -> Result<Vec<MemSink>, AllocError>
    ensures { IfOk result (λ traces. length traces.items ≡ count) }
{
    let mut traces = Vec::new(alloc);
    for place in 0..count {
        traces.push(trace_of(alloc, failing, place)?)?;
    }
    Ok(traces)
}

// What is told of a plant that is served over a net, and how many bytes were traced of the first panel.
pub(super) fn served<R: Threads + Wait + Sync, G: Gate>(
    rt: &R,
    alloc: Global,
    plant: &Plant,
    net: &mut MemNet,
    gate: &G,
    failing: Failing,
) -> Result<(Told, usize), AllocError> {
    let names = Names::new(alloc, plant)?;
    let traces = traces_of(alloc, plant.panels().len() + 1, failing)?;
    let (traces, answer) = serve(rt, alloc, plant, &names, net, gate, traces);
    Ok((told_of(&answer), first_traced(&traces)))
}

fn told_of(answer: &Result<PlantDone, ServeFault>) -> Told {
    match answer {
        Ok(done) => Ok((
            done.sessions,
            done.entries,
            done.limits,
            done.net_faults,
            done.failed_trace,
        )),
        Err(fault) => Err(*fault),
    }
}

fn first_traced(traces: &[MemSink]) -> usize {
    if let [first, ..] = traces {
        return first.written().len();
    }
    0
}

// What was written to a panel.
pub(super) fn written_to(back: &[ClosedAcceptor], panel: u32) -> &[u8] {
    for closed in back {
        if closed.panel == panel {
            return first_written(&closed.acceptor);
        }
    }
    &[]
}

// Whether a plant is served as a case says, and what was opened is given back.
fn serves_so<R: Threads + Wait + Sync>(
    rt: &R,
    alloc: Global,
    plant: &Plant,
    case: &Case,
) -> Result<bool, AllocError> {
    let (day, failing, told, _, traced) = *case;
    let mut net = net_of(alloc, day, failing)?;
    let found = served(rt, alloc, plant, &mut net, &OpenGate, failing)?;
    Ok(found == (told, traced) && is_left_so(&net, case))
}

// Whether a net is left as a case says.
fn is_left_so(net: &MemNet, case: &Case) -> bool {
    let (day, _, _, [first, second], _) = *case;
    let back = net.acceptors_back();
    back.len() == net.openings().len().min(2)
        && written_to(back, 0) == front(day.answer, first)
        && written_to(back, 1) == front(day.answer, second)
}

// The cases. Where all of them stand in a proof, each of its goals reads them.
fn cases() -> &'static [Case] {
    CASES
}

// A plant is served as each case says.
fn all_serve_so<R: Threads + Wait + Sync + Abort>(
    rt: &R,
    alloc: Global,
    plant: &Plant,
) -> Result<(), AllocError> {
    for (at, case) in cases().iter().enumerate() {
        let is_so = serves_so(rt, alloc, plant, case)?;
        assert!(rt; is_so, "case {at}");
    }
    Ok(())
}

#[test]
fn a_plant_is_served_as_its_calls_go(rt: HostRuntime) -> Result<(), Fail> {
    let plant = plant_of(rt.alloc(), HASTY)?;
    Ok(all_serve_so(&rt, rt.alloc(), &plant)?)
}

// Whether both panels are served, one of which is held until the other one is done.
fn serves_both<R: Threads + Wait + Sync>(
    rt: &R,
    alloc: Global,
    plant: &Plant,
    held: u32,
) -> Result<bool, AllocError> {
    let gate = HoldingGate::of(held, 1 - held.min(1));
    let mut net = net_of(alloc, &ASK, NOTHING)?;
    let (told, _) = served(rt, alloc, plant, &mut net, &gate, NOTHING)?;
    Ok(told.is_ok() && gate.shows_both())
}

// Panels that were served one after another would make the gate give up in one of the two, and those that pass it by show
// nothing.
#[test]
fn panels_are_served_at_the_same_time(rt: HostRuntime) -> Result<(), Fail> {
    let plant = plant_of(rt.alloc(), HASTY)?;
    let first = serves_both(&rt, rt.alloc(), &plant, 0)?;
    let second = serves_both(&rt, rt.alloc(), &plant, 1)?;
    assert!(rt; first && second);
    Ok(())
}
