//! The workers of a drill: each serves the session of one panel.

ghost use Rattle.std.specs.Prelude.{◌≡◌, ◌<◌, ◌≤◌, ◌^◌, [], IfOk};
ghost use Rattle.ctl_net.specs.MemLink.{new_link};
ghost use Rattle.plant_config.specs.DrillPlant.{drill_plant, drill_panel_limit};
ghost use Rattle.drill.specs.WorkerInside.{IsReady, MayWork, WasServed, most_pieces};
ghost use Rattle.drill.specs.WorkerInside.{bytes_of_panel, link_room, trace_room};
ghost use Rattle.drill.specs.Drilled.{most_messages};
ghost use Rattle.drill.specs.Pieces.{in_pieces};
ghost use Rattle.drill.specs.TapeInside.{new_tape};

use crate::panel_bytes::stream;
use crate::panel_link::PanelLink;
use crate::pieces::in_pieces;
use crate::tape::Tape;
use ctl_net::{Gate, GatePoint};
use history_lock::{HistoryLock, Seat};
use panel_session::{Session, serve_session};
use plant_config::{PanelNo, Plant};
use plant_core::PlantState;
use plant_names::Names;
use std::alloc::{AllocError, Global};
use std::sync::Wait;

// What a drill works: its number, how many panels it has, and how many messages each of them sends.
#[derive(Drop)]
pub(crate) struct Workload {
    pub(crate) number: u64,
    pub(crate) panels: u32,
    pub(crate) each: u32,
}

// A panel's session, its seat of the plant's lock, its link and its trace; and once it is over, the good and the bad frames
// that came.
#[derive(Drop)]
pub(crate) struct Worker<'p> {
    pub(crate) session: Session<'p>,
    pub(crate) seat: Seat<PlantState>,
    pub(crate) link: PanelLink,
    pub(crate) trace: Tape,
    pub(crate) goods: u64,
    pub(crate) bads: u64,
}

// The room of a link and of a trace, in bytes: so many for each message of the panel and so many for each piece. It is more
// than what its session writes.
const LINK_ROOM_OF_MESSAGE: usize = 64;

const LINK_ROOM_OF_PIECE: usize = 1024;

const TRACE_ROOM_OF_MESSAGE: usize = 256;

const TRACE_ROOM_OF_PIECE: usize = 8192;

impl<'p> Worker<'p> {
    // A worker of a panel that has done nothing.
    pub(crate) fn new(
        alloc: Global,
        plant: &'p Plant,
        names: &'p Names,
        seat: Seat<PlantState>,
        load: &Workload,
        panel: u32,
    ) -> Result<Worker<'p>, AllocError>
        requires plant { plant.now ≡ drill_plant load.now.panels }
        requires names { names.now ≡ plant.now }
        requires panel { panel < load.now.panels }
        requires panels { load.now.panels ≤ drill_panel_limit }
        requires each { load.now.each ≤ most_messages }
        ensures ready { IfOk result (IsReady load.now panel) }
        ensures seat { IfOk result (λ worker. worker.seat ≡ seat) }
    {
        let (link, trace) = link_and_trace(alloc, load, panel)?;
        let session = Session::start(alloc, plant, names, PanelNo::of(panel))?;
        Ok(Worker {
            session,
            seat,
            link,
            trace,
            goods: 0,
            bads: 0,
        })
    }

    // Serves the session, for at most so many turns.
    pub(crate) fn work<R: Wait, G: Gate>(
        &mut self,
        rt: &R,
        gate: &G,
        lock: &HistoryLock<PlantState>,
        load: &Workload,
        panel: usize,
        turns: u64,
    )
        requires may { MayWork load.now lock.now panel self.old }
        requires panels { 1 ≤ load.now.panels }
        requires most { load.now.panels ≤ drill_panel_limit }
        requires enough { most_pieces < turns }
        requires turns { turns ≤ 2 ^ 40 }
        ensures { WasServed load.now lock.now panel self.new }
    {
        let number = self.session.panel().get();
        gate.pass(rt, GatePoint::Start(number));
        serve_session(
            rt,
            &mut self.session,
            lock,
            &mut self.seat,
            &mut self.link,
            &mut self.trace,
            turns,
        );
        gate.pass(rt, GatePoint::Done(number));
        let counts = self.session.counts();
        self.goods = counts.goods;
        self.bads = counts.bads;
        self.link.keeps();
        self.trace.keeps();
    }

    // Its seat. All else of it is let go.
    pub(crate) fn into_seat(self) -> Seat<PlantState>
        ensures { result ≡ self.entry.seat }
    {
        self.seat
    }
}

// The link of a panel, which has in pieces what the panel sends, and its trace. Nothing was read, written or traced.
fn link_and_trace(
    alloc: Global,
    load: &Workload,
    panel: u32,
) -> Result<(PanelLink, Tape), AllocError>
    requires panel { panel < drill_panel_limit }
    requires each { load.now.each ≤ most_messages }
    ensures link { IfOk result (λ made. made.0 ≡ new_link (in_pieces
        (bytes_of_panel load.now panel)) (link_room load.now panel) [] []) }
    ensures trace { IfOk result (λ made. made.1 ≡ new_tape (trace_room load.now panel)) }
{
    let bytes = stream(alloc, load.number, panel, load.each)?;
    let events = in_pieces(alloc, bytes.as_slice())?;
    let each = load.each as usize;
    let pieces = events.as_slice().len();
    let written = LINK_ROOM_OF_MESSAGE * each + LINK_ROOM_OF_PIECE * pieces;
    let traced = TRACE_ROOM_OF_MESSAGE * each + TRACE_ROOM_OF_PIECE * pieces;
    let link = PanelLink::new(alloc, events, written)?;
    let trace = Tape::new(alloc, traced)?;
    Ok((link, trace))
}
