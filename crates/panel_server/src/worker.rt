//! The workers of a plant's panels and of its displays.

ghost use Rattle.panel_server.specs.Workers.{HasDoneWork, MayWork, worker_shows};

use crate::displays::{DriverEnd, drive_displays};
use crate::panel::{PanelDone, serve_panel};
use ctl_io::Sink;
use ctl_net::{Acceptor, DisplayPort, Gate};
use history_lock::{HistoryLock, Seat};
use panel_session::Session;
use plant_config::Plant;
use plant_core::PlantState;
use std::alloc::Global;
use std::sync::Wait;

// The worker of the panel of this number: what it serves with, and what it has done.
pub(crate) struct PanelWorker<'p, A, K> {
    pub(crate) number: u32,
    pub(crate) session: Session<'p>,
    pub(crate) seat: Seat<PlantState>,
    pub(crate) acceptor: A,
    pub(crate) trace: K,
    pub(crate) done: PanelDone,
}

// The worker of the displays: what it drives them with, and why it ended.
pub(crate) struct DisplayWorker<P, K> {
    pub(crate) seat: Seat<PlantState>,
    pub(crate) port: P,
    pub(crate) trace: K,
    pub(crate) end: DriverEnd,
}

// One of the workers that share a plant.
pub(crate) enum Worker<'p, A, P, K> {
    Panel(PanelWorker<'p, A, K>),
    Displays(DisplayWorker<P, K>),
}

// A worker does its work.
pub(crate) fn work<W: Wait, A: Acceptor, P: DisplayPort, G: Gate, K: Sink>(
    rt: &W,
    alloc: Global,
    plant: &Plant,
    lock: &HistoryLock<PlantState>,
    gate: &G,
    worker: &mut Worker<'_, A, P, K>,
)
    requires { MayWork P.takes plant.now lock.now (worker_shows A.shows P.opening K.name
        K.written K.faults worker.old) }
    ensures { HasDoneWork P.was_sent P.faults plant.now
        (worker_shows A.shows P.opening K.name K.written K.faults worker.old)
        (worker_shows A.shows P.opening K.name K.written K.faults worker.new) }
{
    match worker {
        Worker::Panel(panel) => {
            let turns = plant.server().turns;
            let PanelWorker {
                number: _,
                session,
                seat,
                acceptor,
                trace,
                done,
            } = panel;
            *done = serve_panel(rt, session, lock, seat, acceptor, gate, trace, turns);
        }
        Worker::Displays(displays) => {
            let DisplayWorker {
                seat,
                port,
                trace,
                end,
            } = displays;
            *end = drive_displays(rt, alloc, plant, lock, seat, port, trace);
        }
    }
}
