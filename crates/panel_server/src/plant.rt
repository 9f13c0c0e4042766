//! A plant is served over a network: its panels, and its displays.

ghost use Rattle.std.specs.Prelude.{◌≡◌, ◌+◌, ◌<◌, ◌≤◌, length, map};
ghost use Rattle.ctl_net.specs.Net.{IsFreshPort, TakesAll};
ghost use Rattle.ctl_net.specs.declared.opening.Opening.{Opening};
ghost use Rattle.panel_session.specs.Served.{trace_shows};
ghost use Rattle.panel_server.specs.PlantServed.{NetData, ServedSo};
ghost use Rattle.panel_server.specs.ServeInside.{IsOpenedFor, opened_acceptors, with_port};

use crate::give_back::give_all_back;
use crate::open::open_all;
use crate::room::{Lists, ServeRoom};
use crate::sums::add_up;
use crate::workers::{all_work, make_workers};
use ctl_io::Sink;
use ctl_net::{Gate, Net};
use history_lock::Past;
use plant_config::Plant;
use plant_core::PlantState;
use plant_names::Names;
use std::alloc::Global;
use std::sync::Wait;
use std::thread::Threads;

/// What was done where a plant was served.
#[derive(Drop)]
pub struct PlantDone {
    /// How many sessions there were, of all panels together.
    pub sessions: u64,
    /// How many entries the history has.
    pub entries: u64,
    /// How many sessions ended by a limit: idle for too long, all turns worked, or a history that has no place. One more is
    /// the worker of the displays, if it ended by the last of these.
    pub limits: u64,
    /// How many sessions ended by a fault of their link, how many acceptors couldn't hand out a link, and how many packets to
    /// displays were lost, together.
    pub net_faults: u64,
    /// Of how many traces a write failed.
    pub trace_faults: u64,
    /// The first of these: the number of its panel, or for the displays the number behind those of the panels.
    pub failed_trace: Option<u32>,
    /// The history, which clauses see.
    pub past: Past<PlantState>,
}

/// Why a plant wasn't served.
#[derive(Clone, Copy, Debug, PartialEq, Eq)]
pub enum ServeFault {
    /// There was no memory to begin with, and nothing was done, or none for the displays, and all panels were served.
    NoMemory,
    /// An acceptor or the port of the displays couldn't be opened, and no panel was served.
    NetFault,
}

/// Serves a plant over a net, whose names these are. It opens an acceptor for each panel, in their order, and then the port of
/// the displays. Each panel is served by a worker of its own, as `serve_panel` does, and the displays by one, as
/// `drive_displays` does, all in one history and each in a thread where one can be made. What was opened is given back to the
/// net. There is a trace for each panel, in their order, and then one for the displays, and all are given back in that order.
/// It passes the gate at the start and the end of each session.
pub fn serve<'p, W: Wait + Threads + Sync, N: Net, G: Gate, K: Sink>(
    rt: &W,
    alloc: Global,
    plant: &'p Plant,
    names: &'p Names,
    net: &mut N,
    gate: &G,
    traces: Vec<K>,
) -> (Vec<K>, Result<PlantDone, ServeFault>)
    requires traces { length traces.items ≡ length plant.now.panels + 1 }
    requires names { names.now ≡ plant.now }
    ensures served { ServedSo N.P.was_sent N.P.faults plant.now (N.shows net.old) (N.shows net.new)
        (map (trace_shows K.written K.faults) traces.items)
        (map (trace_shows K.written K.faults) result.0.items) result.1 }
    ensures names { map K.name result.0.items ≡ map K.name traces.items }
{
    let Ok(mut room) = ServeRoom::new(alloc, plant, names) else {
        return (traces, Err(ServeFault::NoMemory));
    };
    let Some(port) = open_all(net, plant, &mut room.lists.acceptors) else {
        room.let_go();
        return (traces, Err(ServeFault::NetFault));
    };
    serve_opened(rt, alloc, plant, net, gate, room, port, traces)
}

// Serves a plant with what was opened, and gives that back.
fn serve_opened<W: Wait + Threads + Sync, N: Net, G: Gate, K: Sink>(
    rt: &W,
    alloc: Global,
    plant: &Plant,
    net: &mut N,
    gate: &G,
    room: ServeRoom<'_, N::A, N::P, K>,
    port: N::P,
    traces: Vec<K>,
) -> (Vec<K>, Result<PlantDone, ServeFault>)
    requires traces { length traces.items ≡ length plant.now.panels + 1 }
    requires opened { IsOpenedFor N.A.shows plant.now room }
    requires port { IsFreshPort (N.P.was_sent port) (N.P.faults port) × TakesAll N.P.takes }
    requires own { N.P.opening port ≡ Some (Opening.Display plant.now.server.display) }
    requires out { (length plant.now.panels ≤ (N.shows net.old).acceptors.out)
        × (0 < (N.shows net.old).ports.out) }
    ensures served { (before : NetData N.P) → N.shows net.old
        ≡ with_port plant.now.server (opened_acceptors plant.now (length plant.now.panels) before)
        → ServedSo N.P.was_sent N.P.faults plant.now before (N.shows net.new)
        (map (trace_shows K.written K.faults) traces.items)
        (map (trace_shows K.written K.faults) result.0.items) result.1 }
    ensures names { map K.name result.0.items ≡ map K.name traces.items }
{
    let ServeRoom {
        lock,
        seats,
        sessions,
        lists,
    } = room;
    let Lists {
        acceptors,
        workers,
        seats: mut seats_back,
        traces: mut traces_back,
    } = lists;
    let mut workers = make_workers(sessions, seats, acceptors, port, traces, workers);
    all_work(rt, alloc, plant, &lock, gate, workers.as_mut_slice());
    let sums = add_up(workers.as_slice());
    give_all_back(net, workers, &mut seats_back, &mut traces_back);
    let closed = lock.close(seats_back);
    (traces_back, sums.answer(closed))
}
