//! The drill itself: all its panels at once on one plant.

ghost use Rattle.std.specs.Prelude.{◌≡◌, ℕ, ◌*◌, ◌<◌, ◌≤◌, ◌^◌, length, All, IfOk};
ghost use Rattle.line_text.specs.Lines.{lines};
ghost use Rattle.plant_config.specs.DrillPlant.{drill_plant, drill_panel_limit};
ghost use Rattle.trace_audit.specs.Laws.{AreLinesOf, IsTraceable};
ghost use Rattle.drill.specs.Drilled.{FitsItsStream, most_messages, share_of, stream_tells};
ghost use Rattle.drill.specs.Drilled.{told_by};
ghost use Rattle.drill.specs.Stream.{bad_among, good_among};
ghost use Rattle.drill.specs.WorkerInside.{EachWorker, HasDrilled, IsReady, MayWork, WasServed};
ghost use Rattle.drill.specs.WorkerInside.{most_pieces, seats_of};

use crate::outcome::{Outcome, gather};
use crate::worker::{Worker, Workload};
use ctl_io::Bytes;
use ctl_net::Gate;
use history_lock::{HistoryLock, Past, Seat};
use plant_config::Plant;
use plant_core::PlantState;
use plant_names::Names;
use std::alloc::{AllocError, Global};
use std::sync::Wait;
use std::thread::{Threads, for_each_mut};

/// What a drill leaves.
#[derive(Drop)]
pub struct Drilled {
    pub plant: Plant,
    /// One for each panel.
    pub sessions: u64,
    /// Those of all panels.
    pub messages: u64,
    /// The good frames of all sessions, each of which was answered by ACK.
    pub acks: u64,
    /// The bad ones, each of which was answered by NAK.
    pub naks: u64,
    /// The traces of the sessions, in the order of the panels.
    pub trace: Bytes,
    /// The history that the plant's lock answered.
    pub past: Past<PlantState>,
}

/// Works the drill of this number: 1 to 16 panels share the plant of the drill, each with a session in a thread of its own,
/// and send up to 200,000 messages in all, each panel as many. A session passes the gate at its start and at its end.
#[tactic(auto, using(crate::proofs::RoomLemmas::share_few, crate::proofs::RoomLemmas::shares_few))]
pub fn run_drill<R: Threads + Wait + Sync, G: Gate>(
    rt: &R,
    alloc: Global,
    gate: &G,
    number: u64,
    panels: u32,
    messages: u64,
) -> Result<Drilled, AllocError>
    requires some { 1 ≤ panels }
    requires most { panels ≤ drill_panel_limit }
    requires messages { messages ≤ most_messages }
    ensures plant { IfOk result (λ drilled. drilled.plant ≡ drill_plant panels) }
    ensures sessions { IfOk result (λ drilled. drilled.sessions ≡ panels) }
    ensures messages { IfOk result (λ drilled.
        drilled.messages ≡ panels * share_of messages panels) }
    ensures acks { IfOk result (λ drilled.
        drilled.acks ≡ panels * good_among (share_of messages panels)) }
    ensures naks { IfOk result (λ drilled.
        drilled.naks ≡ panels * bad_among (share_of messages panels)) }
    ensures history { IfOk result (λ drilled.
        IsTraceable (drill_plant panels) drilled.past) }
    ensures few { IfOk result (λ drilled. length drilled.past ≤ 2 ^ 62) }
    ensures by_panels { IfOk result (λ drilled.
        All (λ entry. entry.seat < panels) drilled.past) }
    ensures entries { IfOk result (λ drilled. (panel : ℕ) → panel < panels
        → FitsItsStream number panel (share_of messages panels) drilled.past) }
    ensures told { IfOk result (λ drilled. (panel : ℕ) → panel < panels
        → told_by panel drilled.past ≡ stream_tells number panel (share_of messages panels)) }
    ensures trace { IfOk result (λ drilled.
        AreLinesOf (drill_plant panels) drilled.past (lines drilled.trace)) }
{
    let plant = Plant::drill(alloc, panels)?;
    let each = messages / u64::from(panels);
    let load = Workload {
        number,
        panels,
        each: each as u32,
    };
    let outcome = work_all(rt, alloc, gate, &plant, &load)?;
    let Outcome {
        goods,
        bads,
        trace,
        past,
    } = outcome;
    Ok(Drilled {
        plant,
        sessions: u64::from(panels),
        messages: u64::from(panels) * each,
        acks: goods,
        naks: bads,
        trace: Bytes::of(trace),
        past,
    })
}

// All panels of the drill's plant at once.
fn work_all<R: Threads + Wait + Sync, G: Gate>(
    rt: &R,
    alloc: Global,
    gate: &G,
    plant: &Plant,
    load: &Workload,
) -> Result<Outcome, AllocError>
    requires plant { plant.now ≡ drill_plant load.now.panels }
    requires some { 1 ≤ load.now.panels }
    requires most { load.now.panels ≤ drill_panel_limit }
    requires each { load.now.each ≤ most_messages }
    ensures { IfOk result (HasDrilled load.now) }
{
    let names = Names::new(alloc, plant)?;
    let state = PlantState::start(alloc, plant)?;
    let (lock, seats) = HistoryLock::new(alloc, state, load.panels)?;
    let mut workers = hire(alloc, plant, &names, seats, load)?;
    work_each(
        rt,
        gate,
        &lock,
        workers.as_mut_slice(),
        load,
        plant.server().turns,
    );
    gather(alloc, lock, workers, load)
}

// A worker for each seat, in the order of the panels.
fn hire<'p>(
    alloc: Global,
    plant: &'p Plant,
    names: &'p Names,
    seats: Vec<Seat<PlantState>>,
    load: &Workload,
) -> Result<Vec<Worker<'p>>, AllocError>
    requires plant { plant.now ≡ drill_plant load.now.panels }
    requires names { names.now ≡ plant.now }
    requires count { length seats.items ≡ load.now.panels }
    requires most { load.now.panels ≤ drill_panel_limit }
    requires each { load.now.each ≤ most_messages }
    ensures ready { IfOk result (λ workers. EachWorker (IsReady load.now) workers.items) }
    ensures seats { IfOk result (λ workers. seats_of workers.items ≡ seats.items) }
{
    let mut seats = seats;
    let mut workers = Vec::with_capacity(alloc, seats.len())?;
    for panel in 0..load.panels {
        let seat = seats.remove(0);
        let worker = Worker::new(alloc, plant, names, seat, load, panel)?;
        workers.push_reserved(worker);
    }
    Ok(workers)
}

// Each worker works, in a thread of its own.
fn work_each<R: Threads + Wait + Sync, G: Gate>(
    rt: &R,
    gate: &G,
    lock: &HistoryLock<PlantState>,
    workers: &mut [Worker<'_>],
    load: &Workload,
    turns: u64,
)
    requires may { EachWorker (MayWork load.now lock.now) workers.old }
    requires some { 1 ≤ load.now.panels }
    requires most { load.now.panels ≤ drill_panel_limit }
    requires enough { most_pieces < turns }
    requires turns { turns ≤ 2 ^ 40 }
    ensures { EachWorker (WasServed load.now lock.now) workers.new }
{
    let work = |panel: usize, worker: &mut Worker<'_>|
        requires { MayWork load.now lock.now panel worker.now × (most_pieces < turns)
            × (turns ≤ 2 ^ 40) × (1 ≤ load.now.panels)
            × (load.now.panels ≤ drill_panel_limit) }
        ensures { WasServed load.entry.now lock.entry.now panel worker.exit.now }
    { worker.work(rt, gate, lock, load, panel, turns) };
    for_each_mut(rt, workers, load.panels as usize, &work);
}
