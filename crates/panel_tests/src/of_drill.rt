//! Drills, and a standby that follows the trace of one.

ghost use Rattle.std.specs.Prelude.{◌≤◌};
ghost use Rattle.plant_core.specs.Answer.{room_of};

use crate::examples::of_drill::drill_of_two;
use crate::holding_gate::HoldingGate;
use ctl_net::OpenGate;
use drill::run_drill;
use history_lock::{Machine, OutBox};
use line_text::split_line;
use plant_config::{DestId, Plant};
use plant_core::{Answer, PlantState, Request};
use standby::{Standby, Took};
use std::alloc::{AllocError, Global};
use std::process::Abort;
use std::sync::Wait;
use std::test::Fail;
use std::thread::Threads;
use trace_audit::{Verdict, audit};
use trace_lines::trace_request;

#[test]
fn the_trace_of_a_drill_is_confirmed(rt: HostRuntime) -> Result<(), Fail> {
    let drilled = drill_of_two(&rt, rt.alloc(), &OpenGate)?;
    let found = audit(rt.alloc(), &drilled.plant, drilled.trace.as_slice())?;
    assert!(rt; matches!(found, Verdict::Confirmed(_)));
    Ok(())
}

// Whether the held session of two saw that the other is done, before it gave up.
fn is_done<R: Threads + Wait + Sync>(
    rt: &R,
    alloc: Global,
    held: u32,
    awaited: u32,
) -> Result<bool, AllocError> {
    let gate = HoldingGate::of(held, awaited);
    drill_of_two(rt, alloc, &gate)?;
    Ok(gate.shows_both())
}

// Sessions that ran one after another would make the gate give up in one of the two, and those that pass it by show nothing.
#[test]
fn sessions_run_at_the_same_time(rt: HostRuntime) -> Result<(), Fail> {
    let first = is_done(&rt, rt.alloc(), 0, 1)?;
    let second = is_done(&rt, rt.alloc(), 1, 0)?;
    assert!(rt; first && second);
    Ok(())
}

// What a line of a trace tells: a request, and its position.
type Told = (u64, Request);

// What the lines of a trace tell, in the order in which they stand.
fn told_by(alloc: Global, plant: &Plant, trace: &[u8]) -> Result<Vec<Told>, AllocError> {
    let mut all = Vec::new(alloc);
    let mut rest = trace;
    for _line in 0..trace.len() {
        if rest.is_empty() {
            return Ok(all);
        }
        let (line, after) = split_line(rest);
        if let Some(told) = trace_request(plant, line) {
            all.push(told)?;
        }
        rest = after;
    }
    Ok(all)
}

// A block comes to a standby from its end to its start: each is kept or applied.
fn take_back(rt: &impl Abort, standby: &mut Standby, block: &[Told]) {
    for (position, request) in block.iter().rev() {
        assert!(rt; *position < 1 << 62 && standby.state().fits(request));
        let took = standby.take(*position, request);
        assert!(rt; matches!(took, Took::Kept | Took::Applied(_)));
    }
}

// They come so in blocks of a hundred, after which all are applied and none is kept.
fn come_back(rt: &impl Abort, standby: &mut Standby, all: &[Told]) {
    for block in all.chunks(100) {
        take_back(rt, standby, block);
    }
    assert!(rt; standby.applied() == all.len() as u64 && standby.kept() == 0);
}

// A plant is stepped by each, in their order.
fn step_all(rt: &impl Abort, state: &mut PlantState, out: &mut OutBox<Answer>, all: &[Told])
    requires { room_of state.old.plant ≤ out.old.places }
{
    for (_position, request) in all {
        assert!(rt; state.fits(request));
        out.clear();
        state.step(request, out);
    }
}

// A standby has the same at each destination.
fn carries_the_same(rt: &impl Abort, plant: &Plant, state: &PlantState, standby: &Standby) {
    for dest in 0..plant.destination_count() {
        let dest = DestId::of(dest);
        assert!(rt; state.source_at(dest) == standby.state().source_at(dest));
    }
}

// A plant that is stepped by each, in their order, has the same at each destination as a standby.
fn steps_to(
    rt: &impl Abort,
    alloc: Global,
    plant: &Plant,
    all: &[Told],
    standby: &Standby,
) -> Result<(), AllocError> {
    let mut out = OutBox::new(alloc, PlantState::room_of(plant))?;
    let mut state = PlantState::start(alloc, plant)?;
    step_all(rt, &mut state, &mut out, all);
    carries_the_same(rt, plant, &state, standby);
    Ok(())
}

// Puts them in the order of their positions.
fn put_in_order(all: &mut [Told]) {
    all.sort_unstable_by_key(|told| told.0);
}

// A new standby to which they come backwards is where a plant is that they step in the order of their positions.
fn is_followed(
    rt: &impl Abort,
    alloc: Global,
    plant: &Plant,
    all: &mut [Told],
) -> Result<(), AllocError> {
    let mut standby = Standby::start(alloc, plant, 65_536)?;
    come_back(rt, &mut standby, all);
    put_in_order(all);
    steps_to(rt, alloc, plant, all, &standby)
}

// So it is with those of a trace.
fn trace_is_followed(
    rt: &impl Abort,
    alloc: Global,
    plant: &Plant,
    trace: &[u8],
) -> Result<(), AllocError> {
    let mut all = told_by(alloc, plant, trace)?;
    is_followed(rt, alloc, plant, &mut all)
}

#[test]
fn blocks_may_come_backwards(rt: HostRuntime) -> Result<(), Fail> {
    let drilled = run_drill(&rt, rt.alloc(), &OpenGate, 7, 2, 2000)?;
    trace_is_followed(&rt, rt.alloc(), &drilled.plant, drilled.trace.as_slice())?;
    Ok(())
}
