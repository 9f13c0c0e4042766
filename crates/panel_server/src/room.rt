//! What serving a plant takes the memory of before anything is opened.

ghost use Rattle.std.specs.Prelude.{◌≡◌, ◌+◌, ◌^◌, ◌<◌, ◌≤◌, [], length, vec_capacity, IfOk};
ghost use Rattle.panel_server.specs.ServeInside.{AreSessions, HasPlaces, IsEmptied, IsRoomFor};

use crate::worker::Worker;
use history_lock::{HistoryLock, Seat};
use panel_session::Session;
use plant_config::{PanelNo, Plant};
use plant_core::PlantState;
use plant_names::Names;
use std::alloc::{AllocError, Global};

// The lists of a run, empty at first: the acceptors that are opened, the workers, and the seats and the traces that come back.
pub(crate) struct Lists<'p, A, P, K> {
    pub(crate) acceptors: Vec<A>,
    pub(crate) workers: Vec<Worker<'p, A, P, K>>,
    pub(crate) seats: Vec<Seat<PlantState>>,
    pub(crate) traces: Vec<K>,
}

impl<'p, A, P, K> Lists<'p, A, P, K> {
    // Lists with places for so many panels.
    fn new(alloc: Global, panels: usize) -> Result<Lists<'p, A, P, K>, AllocError>
        requires { panels < 2 ^ 32 }
        ensures { IfOk result (HasPlaces panels) }
    {
        let seats = Vec::with_capacity(alloc, panels + 1)?;
        let acceptors = Vec::with_capacity(alloc, panels)?;
        let Ok(workers) = Vec::with_capacity(alloc, panels + 1) else {
            acceptors.destroy_empty();
            return Err(AllocError);
        };
        let Ok(traces) = Vec::with_capacity(alloc, panels + 1) else {
            acceptors.destroy_empty();
            workers.destroy_empty();
            return Err(AllocError);
        };
        Ok(Lists {
            acceptors,
            workers,
            seats,
            traces,
        })
    }
}

// What a run needs: the lock round the plant, with a seat for each panel and one for the displays, a session for each panel,
// and the lists.
pub(crate) struct ServeRoom<'p, A, P, K> {
    pub(crate) lock: HistoryLock<PlantState>,
    pub(crate) seats: Vec<Seat<PlantState>>,
    pub(crate) sessions: Vec<Session<'p>>,
    pub(crate) lists: Lists<'p, A, P, K>,
}

impl<'p, A, P, K> ServeRoom<'p, A, P, K> {
    pub(crate) fn new(
        alloc: Global,
        plant: &'p Plant,
        names: &'p Names,
    ) -> Result<ServeRoom<'p, A, P, K>, AllocError>
        requires names { names.now ≡ plant.now }
        ensures { IfOk result (IsRoomFor plant.now) }
    {
        let panels = plant.panels().len();
        let state = PlantState::start(alloc, plant)?;
        let (lock, seats) = HistoryLock::new(alloc, state, panels as u32 + 1)?;
        let sessions = start_sessions(alloc, plant, names, panels as u32)?;
        let lists = Lists::new(alloc, panels)?;
        Ok(ServeRoom {
            lock,
            seats,
            sessions,
            lists,
        })
    }

    // Lets the lists go, which are empty.
    pub(crate) fn let_go(self)
        requires { IsEmptied self }
    {
        let ServeRoom {
            lock: _,
            seats: _,
            sessions: _,
            lists,
        } = self;
        let Lists {
            acceptors,
            workers,
            seats: _,
            traces,
        } = lists;
        acceptors.destroy_empty();
        workers.destroy_empty();
        traces.destroy_empty();
    }
}

// A session for each of so many panels, in their order.
fn start_sessions<'p>(
    alloc: Global,
    plant: &'p Plant,
    names: &'p Names,
    panels: u32,
) -> Result<Vec<Session<'p>>, AllocError>
    requires panels { panels ≤ length plant.now.panels }
    requires names { names.now ≡ plant.now }
    ensures new { IfOk result (λ sessions. AreSessions plant.now 0 sessions.items) }
    ensures count { IfOk result (λ sessions. length sessions.items ≡ panels) }
{
    let mut sessions = Vec::with_capacity(alloc, panels as usize)?;
    for number in 0..panels {
        let panel = PanelNo::of(number);
        sessions.push_reserved(Session::start(alloc, plant, names, panel)?);
    }
    Ok(sessions)
}
