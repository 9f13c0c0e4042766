//! A day of many panels that come and go, whose traces are audited together.

ghost use Rattle.std.specs.Prelude.{◌<◌, ◌≡◌, IfOk, length};
ghost use Rattle.ctl_net.specs.MemAcceptor.{AreNewLinks, IsNewAcceptor};
ghost use Rattle.ctl_net.specs.MemLink.{IsNewLink};

use crate::examples::of_trace_audit::is_confirmed;
use crate::in_memory::event_of;
use crate::studio::plant_of;
use ctl_io::MemSink;
use ctl_net::{MemAcceptor, MemLink, MemNet, MemPort, OpenGate};
use drill::stream;
use panel_server::{PlantDone, ServeFault, serve};
use plant_config::Plant;
use plant_names::Names;
use std::alloc::{AllocError, Global};
use std::sync::Wait;
use std::test::Fail;
use std::thread::Threads;

// Eight panels, and two screens of displays.
const STADIUM: &[u8] = br#"
title = "Stadium"
server = { sessions = 3 }
level = [
    { matrix = 0, level = 0, sources = 256, destinations = 256 },
    { matrix = 1, level = 0, sources = 32, destinations = 32 },
]
display = [
    { screen = 1, index = 0, matrix = 0, destination = 0 },
    { screen = 2, index = 7, matrix = 1, destination = 31 },
]
panel = [
    { port = 9001, device = 1 }, { port = 9002, device = 2 }, { port = 9003, device = 3 }, { port = 9004, device = 4 },
    { port = 9005, device = 5 }, { port = 9006, device = 6 }, { port = 9007, device = 7 }, { port = 9008, device = 1 },
]
"#;

// Room for the polls of displays that don't pause while the panels wait for a processor.
const TRACE_ROOM: usize = 16_000_000;

// A link over which bytes come in pieces of so many.
fn cut_link(alloc: Global, bytes: &[u8], most: usize) -> Result<MemLink, AllocError>
    requires { 0 < most }
    ensures { IfOk result IsNewLink }
{
    let mut events = Vec::new(alloc);
    for piece in bytes.chunks(most) {
        events.push(event_of(alloc, piece)?)?;
    }
    MemLink::new(alloc, events, 100_000, Vec::new(alloc), Vec::new(alloc))
}

// Links over which bytes come, a third over each, in pieces of so many.
fn cut_links(alloc: Global, bytes: &[u8], most: usize) -> Result<Vec<MemLink>, AllocError>
    requires { 0 < most }
    ensures { IfOk result (λ links. AreNewLinks links.items) }
{
    let mut links = Vec::new(alloc);
    for third in bytes.chunks(bytes.len() / 3 + 1) {
        links.push(cut_link(alloc, third, most)?)?;
    }
    Ok(links)
}

// What a panel sends in the drill. Which bytes these are makes no difference to what is promised here.
fn sent_by(alloc: Global, panel: u32) -> Result<Vec<u8>, AllocError>
    requires { panel < 8 }
{
    stream(alloc, 7, panel, 40)
}

// The acceptor of a panel that comes three times, each time with a third of what it sends in the drill, cut anywhere.
fn thrice(alloc: Global, panel: u32) -> Result<MemAcceptor, AllocError>
    requires { panel < 8 }
    ensures { IfOk result IsNewAcceptor }
{
    let sent = sent_by(alloc, panel)?;
    let links = cut_links(alloc, sent.as_slice(), 5 * panel as usize + 1)?;
    MemAcceptor::new(alloc, links, 3, Vec::new(alloc))
}

// The net of the stadium, whose first packet is lost.
fn day_of(alloc: Global) -> Result<MemNet, AllocError> {
    let mut acceptors = Vec::new(alloc);
    for panel in 0..8 {
        acceptors.push(thrice(alloc, panel)?)?;
    }
    let ports = vec![in alloc; MemPort::new(alloc, 100_000, vec![in alloc; 0]?)?]?;
    MemNet::new(alloc, acceptors, ports, 9, Vec::new(alloc))
}

// So many traces, with room for a day.
fn long_traces(alloc: Global, count: usize) -> Result<Vec<MemSink>, AllocError>
    ensures { IfOk result (λ traces. length traces.items ≡ count) }
{
    let mut traces = Vec::new(alloc);
    for _place in 0..count {
        traces.push(MemSink::new(alloc, TRACE_ROOM, Vec::new(alloc))?)?;
    }
    Ok(traces)
}

// What came of a day of the stadium, with its traces.
fn served<R: Threads + Wait + Sync>(
    rt: &R,
    alloc: Global,
    plant: &Plant,
) -> Result<(Vec<MemSink>, Result<PlantDone, ServeFault>), AllocError> {
    let names = Names::new(alloc, plant)?;
    let traces = long_traces(alloc, plant.panels().len() + 1)?;
    let mut net = day_of(alloc)?;
    Ok(serve(rt, alloc, plant, &names, &mut net, &OpenGate, traces))
}

// What traces have, one behind the other.
fn join(traces: &[MemSink], all: &mut Vec<u8>) -> Result<(), AllocError> {
    for trace in traces {
        all.extend_from_slice(trace.written())?;
    }
    Ok(())
}

// What came of a day of the stadium, whose traces are joined.
fn joined<R: Threads + Wait + Sync>(
    rt: &R,
    alloc: Global,
    plant: &Plant,
    all: &mut Vec<u8>,
) -> Result<PlantDone, Fail> {
    let (traces, answer) = served(rt, alloc, plant)?;
    join(&traces, all)?;
    Ok(answer?)
}

#[test]
fn the_traces_of_a_day_are_confirmed(rt: HostRuntime) -> Result<(), Fail> {
    let mut all = Vec::new(rt.alloc());
    let plant = plant_of(rt.alloc(), STADIUM)?;
    let done = joined(&rt, rt.alloc(), &plant, &mut all)?;
    assert!(rt; done.sessions == 24 && done.limits == 0);
    assert!(rt; done.net_faults == 1 && done.trace_faults == 0);
    assert!(rt; is_confirmed(rt.alloc(), &plant, &all, done.entries)?);
    Ok(())
}
