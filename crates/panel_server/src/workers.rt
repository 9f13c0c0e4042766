//! The workers of all panels and of the displays: how they are made of what was opened, and how they work side by side.

ghost use Rattle.std.specs.Prelude.{◌≡◌, ◌+◌, ◌^◌, ◌<◌, ◌≤◌, ◌∷◌, ℕ, All, [], length, map};
ghost use Rattle.std.specs.Prelude.{slice_index_or, vec_capacity};
ghost use Rattle.std.specs.Vec.Iter.{into_iter_items, into_iter_len};
ghost use Rattle.ctl_net.specs.Net.{port_end};
ghost use Rattle.panel_server.specs.ServeInside.{crew, ends_from};
ghost use Rattle.panel_server.specs.Workers.{HasDoneWork, MayWork, sink_shows, worker_shows};

use crate::displays::DriverEnd;
use crate::panel::PanelDone;
use crate::worker::{DisplayWorker, PanelWorker, Worker, work};
use ctl_io::Sink;
use ctl_net::{Acceptor, DisplayPort, Gate};
use history_lock::{HistoryLock, Seat};
use panel_session::Session;
use plant_config::Plant;
use plant_core::PlantState;
use std::alloc::Global;
use std::sync::Wait;
use std::thread::{Threads, for_each_mut};
use std::vec::IntoIter;

// Makes the workers, in the order of the panels and last that of the displays.
pub(crate) fn make_workers<'p, A: Acceptor, P: DisplayPort, K: Sink>(
    sessions: Vec<Session<'p>>,
    seats: Vec<Seat<PlantState>>,
    acceptors: Vec<A>,
    port: P,
    traces: Vec<K>,
    workers: Vec<Worker<'p, A, P, K>>,
) -> Vec<Worker<'p, A, P, K>>
    requires empty { workers.items ≡ [] }
    requires places { length acceptors.items + 1 ≤ vec_capacity workers }
    requires few { length acceptors.items < 2 ^ 32 }
    requires sessions { length sessions.items ≡ length acceptors.items }
    requires seats { length seats.items ≡ length acceptors.items + 1 }
    requires traces { length traces.items ≡ length acceptors.items + 1 }
    ensures { map (worker_shows A.shows P.opening K.name K.written K.faults) result.items
        ≡ crew 0 sessions.entry.items seats.items (ends_from A.shows 0 acceptors.items)
        (map (sink_shows K.name K.written K.faults) traces.items)
        (port_end (P.opening port) port) }
{
    let mut workers = workers;
    let mut sessions = sessions.into_iter();
    let mut seats = seats.into_iter();
    let mut acceptors = acceptors.into_iter();
    let mut traces = traces.into_iter();
    let mut number = 0;
    while let Some(acceptor) = acceptors.next() {
        let session = next_of(&mut sessions);
        let seat = next_of(&mut seats);
        let trace = next_of(&mut traces);
        workers.push_reserved(Worker::Panel(PanelWorker {
            number,
            session,
            seat,
            acceptor,
            trace,
            done: PanelDone {
                sessions: 0,
                link_faults: 0,
                limits: 0,
                refused: false,
                trace_failed: false,
            },
        }));
        number += 1;
    }
    let seat = next_of(&mut seats);
    let trace = next_of(&mut traces);
    workers.push_reserved(Worker::Displays(DisplayWorker {
        seat,
        port,
        trace,
        end: DriverEnd::NoMemory,
    }));
    acceptors.destroy_empty();
    traces.destroy_empty();
    workers
}

// Takes the first of those that are left.
fn next_of<T>(left: &mut IntoIter<T>) -> T
    requires some { 0 < length (into_iter_items left.old) }
    requires counted { into_iter_len left.old ≡ length (into_iter_items left.old) }
    ensures first { into_iter_items left.old ≡ result ∷ into_iter_items left.new }
    ensures counted { into_iter_len left.new ≡ length (into_iter_items left.new) }
{
    let Some(first) = left.next() else {
        unreachable!()
    };
    first
}

// All workers do their work, each in a thread where one can be made.
pub(crate) fn all_work<W: Wait + Threads + Sync, A: Acceptor, P: DisplayPort, G: Gate, K: Sink>(
    rt: &W,
    alloc: Global,
    plant: &Plant,
    lock: &HistoryLock<PlantState>,
    gate: &G,
    workers: &mut [Worker<'_, A, P, K>],
)
    requires some { 0 < length workers.old }
    requires may { All (λ worker. MayWork P.takes plant.now lock.now
        (worker_shows A.shows P.opening K.name K.written K.faults worker)) workers.old }
    ensures length { length workers.new ≡ length workers.old }
    ensures worked { (k : ℕ) (other : _) → k < length workers.old
        → HasDoneWork P.was_sent P.faults plant.now
        (worker_shows A.shows P.opening K.name K.written K.faults
        (slice_index_or workers.old k other))
        (worker_shows A.shows P.opening K.name K.written K.faults
        (slice_index_or workers.new k other)) }
{
    let threads = workers.len();
    for_each_mut(
        rt,
        workers,
        threads,
        &|_, worker: &mut Worker<'_, A, P, K>|
            requires { MayWork P.takes plant.now lock.now (worker_shows A.shows P.opening
                K.name K.written K.faults worker.now) }
            ensures { HasDoneWork P.was_sent P.faults plant.entry.now
                (worker_shows A.shows P.opening K.name K.written K.faults worker.entry.now)
                (worker_shows A.shows P.opening K.name K.written K.faults worker.exit.now) }
        { work(rt, alloc, plant, lock, gate, worker) },
    );
}
