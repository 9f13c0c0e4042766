//! A panel leaves.

ghost use Rattle.std.specs.Prelude.{◌≡◌, ℕ, [], IfOk, OnErr, not};
ghost use Rattle.std.specs.Bool.{OnFalse, OnTrue};
ghost use Rattle.ctl_io.specs.Faults.{count_after};
ghost use Rattle.ctl_io.specs.Sink.{appended, AppendsPart};
ghost use Rattle.history_lock.specs.Calls.{FoundFull};
ghost use Rattle.plant_config.specs.Plant.{PlantData};
ghost use Rattle.plant_core.specs.declared.request.Request.TheVariants.{Leave};
ghost use Rattle.panel_session.specs.Session.{StandsFor};
ghost use Rattle.panel_session.specs.SoFar.{nothing_yet};
ghost use Rattle.panel_session.specs.Reply.{trace_line};
ghost use Rattle.panel_server.specs.DrivenInside.{IsGiven};
ghost use Rattle.panel_server.specs.PanelServedInside.{MayBegin, MayServeOn};

use ctl_io::{Sink, write_all};
use history_lock::{CallFault, HistoryLock, Seat};
use panel_session::Session;
use plant_core::{PlantState, Request};
use std::sync::Wait;

// Asks the lock for the leave of a session's panel: its position. The error is that the history has no place for it.
pub(crate) fn make_leave<W: Wait>(
    rt: &W,
    session: &mut Session<'_>,
    lock: &HistoryLock<PlantState>,
    seat: &mut Seat<PlantState>,
) -> Result<u64, CallFault>
    requires may { MayServeOn session.old lock.now seat.old }
    ensures made { (plant : PlantData) (panel : ℕ) → MayBegin plant panel session.old
        → IfOk result (λ position. IsGiven plant (Leave panel) [] position seat.old seat.new) }
    ensures full { OnErr result (FoundFull seat.old seat.new) }
    ensures stands { (plant : PlantData) (panel : ℕ) → MayBegin plant panel session.old
        → StandsFor plant panel session.new nothing_yet }
{
    session.reset();
    let leave = Request::Leave {
        panel: session.panel(),
    };
    lock.call(rt, seat, &leave, session.outbox())
}

// Writes the line of the leave of a session's panel at this position. False where that failed.
pub(crate) fn trace_leave<K: Sink>(session: &mut Session<'_>, position: u64, trace: &mut K) -> bool
    ensures all { (plant : PlantData) (panel : ℕ)
        → StandsFor plant panel session.old nothing_yet
        → OnTrue result (K.written trace.new
        ≡ appended (K.written trace.old) (trace_line plant position (Leave panel) [])) }
    ensures part { (plant : PlantData) (panel : ℕ)
        → StandsFor plant panel session.old nothing_yet
        → OnFalse result (AppendsPart (trace_line plant position (Leave panel) [])
        (K.written trace.old) (K.written trace.new)) }
    ensures same { session.new ≡ session.old }
    ensures count { K.faults trace.new ≡ count_after (not result) (K.faults trace.old) }
    ensures name { K.name trace.new ≡ K.name trace.old }
{
    write_all(trace, session.leave_line(position))
}
