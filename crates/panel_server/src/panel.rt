//! The worker of a panel.

ghost use Rattle.std.specs.Prelude.{◌≡◌, ℕ, ◌^◌, ◌<◌, ◌≤◌};
ghost use Rattle.ctl_net.specs.Acceptor.{link_end};
ghost use Rattle.ctl_net.specs.Net.{acceptor_end};
ghost use Rattle.plant_config.specs.Plant.{PlantData};
ghost use Rattle.panel_session.specs.Served.{MayServe, trace_shows};
ghost use Rattle.panel_session.specs.Session.{StandsFor};
ghost use Rattle.panel_session.specs.SoFar.{nothing_yet};
ghost use Rattle.panel_server.specs.PanelServed.{PanelServed};
ghost use Rattle.panel_server.specs.PanelServedInside.{GivesBack, MayBegin, MayServeOn, ServedAll};

use crate::leave::{make_leave, trace_leave};
use ctl_io::Sink;
use ctl_net::{Acceptor, Gate, GatePoint, Next};
use history_lock::{HistoryLock, Seat};
use panel_session::{Session, SessionEnd, serve_session};
use plant_core::PlantState;
use std::sync::Wait;

/// What the worker of a panel has done.
#[derive(Clone, Copy, Debug, PartialEq, Eq)]
pub struct PanelDone {
    /// How many sessions there were, each over a link of its own.
    pub sessions: u64,
    /// How many of them ended by a fault of their link, of a read or a write.
    pub link_faults: u64,
    /// How many of them ended by a limit: idle for too long, all turns worked, or a history that has no place.
    pub limits: u64,
    /// Whether the acceptor couldn't hand out a link.
    pub refused: bool,
    /// Whether a write of the trace failed.
    pub trace_failed: bool,
}

impl PanelDone {
    ghost use Rattle.panel_server.specs.PanelServedInside.{with_session};

    // Counts one session more, which ended so.
    fn count(&mut self, end: SessionEnd)
        requires sessions { self.old.sessions < 2 ^ 63 }
        requires link_faults { self.old.link_faults ≤ self.old.sessions }
        requires limits { self.old.limits ≤ self.old.sessions }
        ensures counted { self.new ≡ with_session end self.old }
        ensures link_faults { self.new.link_faults ≤ self.new.sessions }
        ensures limits { self.new.limits ≤ self.new.sessions }
    {
        self.sessions += 1;
        match end {
            SessionEnd::Ended => {}
            SessionEnd::ReadFault | SessionEnd::WriteFault => self.link_faults += 1,
            SessionEnd::TraceFault => self.trace_failed = true,
            SessionEnd::IdleOut | SessionEnd::Spent | SessionEnd::Full => self.limits += 1,
        }
    }
}

/// Serves the links of an acceptor one after another, each by a session of its own of at most so many turns, 0 to 2^40, and
/// gives each back. It passes the gate at the start and the end of each session. Once there is no further link, and behind a
/// session that ended by a fault of the trace, the panel leaves; a full history has no place for that. The leave has its line
/// of the trace too, unless a write of that failed before. It takes no memory.
pub fn serve_panel<W: Wait, A: Acceptor, G: Gate, K: Sink>(
    rt: &W,
    session: &mut Session<'_>,
    lock: &HistoryLock<PlantState>,
    seat: &mut Seat<PlantState>,
    acceptor: &mut A,
    gate: &G,
    trace: &mut K,
    turns: u64,
) -> PanelDone
    requires may { MayServe session.old lock.now seat.old }
    requires turns { turns ≤ 2 ^ 40 }
    ensures served { (plant : PlantData) (panel : ℕ)
        → StandsFor plant panel session.old nothing_yet
        → PanelServed plant panel turns result session.new seat.old seat.new
        (acceptor_end panel (A.shows acceptor.old)) (acceptor_end panel (A.shows acceptor.new))
        (trace_shows K.written K.faults trace.old)
        (trace_shows K.written K.faults trace.new) }
    ensures opening { (A.shows acceptor.new).opening ≡ (A.shows acceptor.old).opening }
    ensures trace_name { K.name trace.new ≡ K.name trace.old }
{
    let (mut done, full) = serve_links(rt, session, lock, seat, acceptor, gate, trace, turns);
    if full {
        return done;
    }
    let Ok(position) = make_leave(rt, session, lock, seat) else {
        return done;
    };
    if !done.trace_failed {
        done.trace_failed = !trace_leave(session, position, trace);
    }
    done
}

// Serves the links of an acceptor until no further one is taken: what was done, and whether the history is full.
fn serve_links<W: Wait, A: Acceptor, G: Gate, K: Sink>(
    rt: &W,
    session: &mut Session<'_>,
    lock: &HistoryLock<PlantState>,
    seat: &mut Seat<PlantState>,
    acceptor: &mut A,
    gate: &G,
    trace: &mut K,
    turns: u64,
) -> (PanelDone, bool)
    requires may { MayServeOn session.old lock.now seat.old }
    requires turns { turns ≤ 2 ^ 40 }
    ensures served { (plant : PlantData) (panel : ℕ) → MayBegin plant panel session.old
        → ServedAll plant panel turns result.0 result.1 seat.old seat.new
        (acceptor_end panel (A.shows acceptor.old)) (acceptor_end panel (A.shows acceptor.new))
        (trace_shows K.written K.faults trace.old)
        (trace_shows K.written K.faults trace.new) }
    ensures begins { (plant : PlantData) (panel : ℕ) → MayBegin plant panel session.old
        → MayBegin plant panel session.new }
    ensures may { MayServeOn session.new lock.now seat.new }
    ensures opening { (A.shows acceptor.new).opening ≡ (A.shows acceptor.old).opening }
    ensures trace_name { K.name trace.new ≡ K.name trace.old }
{
    let mut done = PanelDone {
        sessions: 0,
        link_faults: 0,
        limits: 0,
        refused: false,
        trace_failed: false,
    };
    loop {
        let link = match acceptor.next() {
            Next::One(link) => link,
            Next::NoMore => return (done, false),
            Next::Failed => {
                done.refused = true;
                return (done, false);
            }
        };
        let end = serve_link(rt, session, lock, seat, acceptor, gate, trace, turns, link);
        done.count(end);
        match end {
            SessionEnd::TraceFault => return (done, false),
            SessionEnd::Full => return (done, true),
            SessionEnd::Ended
            | SessionEnd::ReadFault
            | SessionEnd::WriteFault
            | SessionEnd::IdleOut
            | SessionEnd::Spent => {}
        }
    }
}

// Serves a link that was handed out, by the session made anew, and gives it back.
fn serve_link<W: Wait, A: Acceptor, G: Gate, K: Sink>(
    rt: &W,
    session: &mut Session<'_>,
    lock: &HistoryLock<PlantState>,
    seat: &mut Seat<PlantState>,
    acceptor: &mut A,
    gate: &G,
    trace: &mut K,
    turns: u64,
    link: A::L,
) -> SessionEnd
    requires may { MayServeOn session.old lock.now seat.old }
    requires turns { turns ≤ 2 ^ 40 }
    requires out { 0 < (A.shows acceptor.old).links.out }
    ensures gives_back { (plant : PlantData) (panel : ℕ) → MayBegin plant panel session.old
        → GivesBack plant panel turns result session.new seat.old seat.new
        (link_end (A.L.written link) (A.L.faults link) (A.L.read_half link))
        (acceptor_end panel (A.shows acceptor.old)) (acceptor_end panel (A.shows acceptor.new))
        (trace_shows K.written K.faults trace.old)
        (trace_shows K.written K.faults trace.new) }
    ensures begins { (plant : PlantData) (panel : ℕ) → MayBegin plant panel session.old
        → MayBegin plant panel session.new }
    ensures may { MayServeOn session.new lock.now seat.new }
    ensures sessions { (A.shows acceptor.new).sessions ≡ (A.shows acceptor.old).sessions }
    ensures opening { (A.shows acceptor.new).opening ≡ (A.shows acceptor.old).opening }
    ensures trace_name { K.name trace.new ≡ K.name trace.old }
{
    let mut link = link;
    session.reset();
    let panel = session.panel().get();
    gate.pass(rt, GatePoint::Start(panel));
    let end = serve_session(rt, session, lock, seat, &mut link, trace, turns);
    acceptor.done(link);
    gate.pass(rt, GatePoint::Done(panel));
    end
}
