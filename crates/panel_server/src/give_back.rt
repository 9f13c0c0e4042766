//! What serving a plant gives back.

ghost use Rattle.std.specs.Prelude.{◌≡◌, ◌+◌, ◌<◌, ◌≤◌, ◌++◌, length, map, vec_capacity};
ghost use Rattle.panel_server.specs.ServeInside.{MayGiveBack, MayGiveAll, after_all, given_back};
ghost use Rattle.panel_server.specs.Workers.{seat_of, trace_sink_of, sink_shows, worker_shows};

use crate::open::{close_acceptor, close_port};
use crate::worker::{DisplayWorker, PanelWorker, Worker};
use ctl_io::Sink;
use ctl_net::Net;
use history_lock::Seat;
use plant_core::PlantState;

// Gives back what the workers had, in their order: to the net their acceptors and their port, and to the lists their seats and
// their traces.
pub(crate) fn give_all_back<N: Net, K: Sink>(
    net: &mut N,
    workers: Vec<Worker<'_, N::A, N::P, K>>,
    seats: &mut Vec<Seat<PlantState>>,
    traces: &mut Vec<K>,
)
    requires out { MayGiveAll N.P.faults (map (worker_shows N.A.shows N.P.opening K.name K.written
        K.faults) workers.items) (N.shows net.old) }
    requires seats { length seats.old.items + length workers.items ≤ vec_capacity seats.old }
    requires traces { length traces.old.items + length workers.items ≤ vec_capacity traces.old }
    ensures net { N.shows net.new ≡ after_all N.P.faults (map (worker_shows N.A.shows N.P.opening
        K.name K.written K.faults) workers.entry.items) (N.shows net.old) }
    ensures seats { seats.new.items ≡ seats.old.items ++ map (λ worker. seat_of
        (worker_shows N.A.shows N.P.opening K.name K.written K.faults worker)) workers.entry.items }
    ensures traces { map (sink_shows K.name K.written K.faults) traces.new.items
        ≡ map (sink_shows K.name K.written K.faults) traces.old.items
        ++ map (λ worker. trace_sink_of (worker_shows N.A.shows N.P.opening K.name K.written
        K.faults worker)) workers.entry.items }
{
    let mut waiting = workers.into_iter();
    while let Some(worker) = waiting.next() {
        let (seat, trace) = give_back(net, worker);
        seats.push_reserved(seat);
        traces.push_reserved(trace);
    }
    waiting.destroy_empty();
}

// Gives back to the net what one worker had of it: its seat and its trace are left.
fn give_back<N: Net, K: Sink>(
    net: &mut N,
    worker: Worker<'_, N::A, N::P, K>,
) -> (Seat<PlantState>, K)
    requires out { MayGiveBack (worker_shows N.A.shows N.P.opening K.name K.written K.faults worker)
        (N.shows net.old) }
    ensures net { N.shows net.new ≡ given_back N.P.faults (worker_shows N.A.shows N.P.opening
        K.name K.written K.faults worker.entry) (N.shows net.old) }
    ensures seat { result.0 ≡ seat_of (worker_shows N.A.shows N.P.opening K.name K.written
        K.faults worker.entry) }
    ensures trace { sink_shows K.name K.written K.faults result.1 ≡ trace_sink_of (worker_shows
        N.A.shows N.P.opening K.name K.written K.faults worker.entry) }
{
    match worker {
        Worker::Panel(panel) => {
            let PanelWorker {
                number,
                session: _,
                seat,
                acceptor,
                trace,
                done: _,
            } = panel;
            close_acceptor(net, number, acceptor);
            (seat, trace)
        }
        Worker::Displays(displays) => {
            let DisplayWorker {
                seat,
                port,
                trace,
                end: _,
            } = displays;
            close_port(net, port);
            (seat, trace)
        }
    }
}
