//! A session that is served over a link, beside others that share the plant.

ghost use Rattle.std.specs.Prelude.{◌≡◌, ℕ, ◌+◌, ◌-◌, ◌^◌, ◌<◌, ◌≤◌, true, take, length};
ghost use Rattle.std.specs.Prelude.{IfErr, IfOk, OnOk};
ghost use Rattle.ctl_io.specs.Faults.{count_after};
ghost use Rattle.plant_config.specs.Plant.{PlantData};
ghost use Rattle.panel_session.specs.Served.{MayServe, Served, link_shows, trace_shows, read_room};
ghost use Rattle.panel_session.specs.Served.{trace_failed_at, was_cut, write_failed_at};
ghost use Rattle.panel_session.specs.ServedInside.{HasServed, MayServeTurn, WasStopped, outside};
ghost use Rattle.panel_session.specs.ServedInside.{EndsAtRead, GavePiece, KeepsAnswered, ended_by};
ghost use Rattle.panel_session.specs.Acting.{MayGoOn};
ghost use Rattle.panel_session.specs.Session.{StandsFor};
ghost use Rattle.panel_session.specs.SoFar.{Progress, nothing_yet, unstarted};

use crate::engine::at_lock::AtLock;
use crate::engine::outlet::WriteHalf;
use crate::session::Session;
use crate::session::cut::Cut;
use ctl_io::Sink;
use ctl_net::{Link, LinkRead};
use history_lock::{HistoryLock, Seat};
use plant_core::PlantState;
use std::sync::Wait;

// The most bytes of a read.
const READ_ROOM: usize = 4096;

/// Why a session ended.
#[derive(Clone, Copy, Debug, PartialEq, Eq)]
pub enum SessionEnd {
    /// The link has nothing left.
    Ended,
    /// A read of the link failed.
    ReadFault,
    /// A write over the link failed.
    WriteFault,
    /// A write of the trace failed.
    TraceFault,
    /// As many reads as the plant's limit says were idle, one behind the other.
    IdleOut,
    /// All turns were worked.
    Spent,
    /// The history has no place for an entry.
    Full,
}

/// Serves a new session over a link, for at most so many turns, 0 to 2^40: turn by turn it reads up to 4,096 bytes, asks the
/// lock, writes each line of the trace and then the frames that answer it. It takes no memory.
pub fn serve_session<W: Wait, L: Link, K: Sink>(
    rt: &W,
    session: &mut Session<'_>,
    lock: &HistoryLock<PlantState>,
    seat: &mut Seat<PlantState>,
    link: &mut L,
    trace: &mut K,
    turns: u64,
) -> SessionEnd
    requires may { MayServe session.old lock.now seat.old }
    requires turns { turns ≤ 2 ^ 40 }
    ensures served { (plant : PlantData) (panel : ℕ)
        → StandsFor plant panel session.old nothing_yet
        → Served plant panel turns result session.new seat.old seat.new
        (link_shows L.written L.faults L.read_half link.old)
        (link_shows L.written L.faults L.read_half link.new)
        (trace_shows K.written K.faults trace.old)
        (trace_shows K.written K.faults trace.new) }
    ensures link_name { L.name link.new ≡ L.name link.old }
    ensures trace_name { K.name trace.new ≡ K.name trace.old }
{
    let limit = session.idle_limit();
    let mut into = [0; READ_ROOM];
    let mut idles = 0;
    let mut worked = 0;
    while worked < turns {
        let used = match read_piece(link, &mut into) {
            Ok(used) => used,
            Err(end) => return end,
        };
        if let Err(end) = serve_turn(rt, session, lock, seat, link, trace, &into[..used]) {
            return end;
        }
        worked += 1;
        idles = idle_reads(idles, used);
        if idles == limit {
            return SessionEnd::IdleOut;
        }
    }
    SessionEnd::Spent
}

// How many reads were idle, one behind the other, once one more gave so many bytes.
fn idle_reads(before: u32, used: usize) -> u32
    requires { before < 2 ^ 32 - 1 }
    ensures idle { used ≡ 0 → result ≡ before + 1 }
    ensures other { 0 < used → result ≡ 0 }
{
    if used == 0 { before + 1 } else { 0 }
}

// Reads once: how many bytes that gave, none where it was idle. The error is how the session ends.
fn read_piece<L: Link>(link: &mut L, into: &mut [u8]) -> Result<usize, SessionEnd>
    requires { length into.old ≡ read_room }
    ensures within { IfOk result (λ used. used ≤ length into.new) }
    ensures reads { IfOk result (λ used. GavePiece (take used into.new)
        (link_shows L.written L.faults L.read_half link.old)
        (link_shows L.written L.faults L.read_half link.new)) }
    ensures ends { IfErr result (λ end. EndsAtRead end
        (link_shows L.written L.faults L.read_half link.old)
        (link_shows L.written L.faults L.read_half link.new)) }
    ensures name { L.name link.new ≡ L.name link.old }
{
    match link.read(into) {
        LinkRead::Got(used) => Ok(used),
        LinkRead::Idle => Ok(0),
        LinkRead::End => Err(SessionEnd::Ended),
        LinkRead::Failed => Err(SessionEnd::ReadFault),
    }
}

// Works one turn with this piece. The error is how the session ends.
fn serve_turn<W: Wait, L: Link, K: Sink>(
    rt: &W,
    session: &mut Session<'_>,
    lock: &HistoryLock<PlantState>,
    seat: &mut Seat<PlantState>,
    link: &mut L,
    trace: &mut K,
    piece: &[u8],
) -> Result<(), SessionEnd>
    requires may { MayServeTurn session.old lock.now seat.old piece.now }
    ensures served { OnOk result ((plant : PlantData) (panel : ℕ) (past : Progress)
        → StandsFor plant panel session.old past → past.now ≡ unstarted
        → MayGoOn past piece.now → KeepsAnswered plant past
        → HasServed plant panel past piece.now session.new
        (outside seat.old (L.written link.old) (K.written trace.old))
        (outside seat.new (L.written link.new) (K.written trace.new))) }
    ensures stops { IfErr result (λ end. (plant : PlantData) (panel : ℕ) (past : Progress)
        → StandsFor plant panel session.old past → past.now ≡ unstarted
        → MayGoOn past piece.now → KeepsAnswered plant past
        → WasStopped plant panel end past piece.now session.new
        (outside seat.old (L.written link.old) (K.written trace.old))
        (outside seat.new (L.written link.new) (K.written trace.new))) }
    ensures cut { IfErr result (λ end. was_cut end ≡ true) }
    ensures link_count { OnOk result (L.faults link.new ≡ L.faults link.old) }
    ensures link_cause { IfErr result (λ end.
        L.faults link.new ≡ count_after (write_failed_at end) (L.faults link.old)) }
    ensures trace_count { OnOk result (K.faults trace.new ≡ K.faults trace.old) }
    ensures trace_cause { IfErr result (λ end.
        K.faults trace.new ≡ count_after (trace_failed_at end) (K.faults trace.old)) }
    ensures read_half { L.read_half link.new ≡ L.read_half link.old }
    ensures link_name { L.name link.new ≡ L.name link.old }
    ensures trace_name { K.name trace.new ≡ K.name trace.old }
{
    let mut at_lock = AtLock {
        rt,
        lock,
        seat,
        trace,
    };
    let mut out = WriteHalf { link };
    match session.work_turn(&mut at_lock, piece, &mut out) {
        Ok(()) => Ok(()),
        Err(cut) => Err(ended_by(cut)),
    }
}

// How a session ends whose turn was cut short so.
fn ended_by(cut: Cut) -> SessionEnd
    ensures { result ≡ ended_by cut }
{
    match cut {
        Cut::Refused => SessionEnd::Full,
        Cut::Untraced => SessionEnd::TraceFault,
        Cut::Unsent => SessionEnd::WriteFault,
    }
}
