//! A turn: a seat takes a ticket, waits until its turn comes, and works its request on the machine.

ghost use Rattle.std.specs.Prelude.{◌≡◌, ◌≤◌, [], length, ◌<◌, ◌^◌, Some, None};
ghost use Rattle.std.specs.Prelude.{IfSome, IfNone, IfOk, IfErr};
ghost use Rattle.history_lock.specs.declared.view.Stage.TheVariants.{Idle, Waits};
ghost use Rattle.history_lock.specs.History.{run};
ghost use Rattle.history_lock.specs.Plays.{EndsTurn, Enters, HasMachine, IsWorked};
ghost use Rattle.history_lock.specs.Seats.{IsAt, IsSame, IsQueued, IsFull, IsSeized, IsTurnedAway};

use crate::desk;
use crate::fault::TryFault;
use crate::machine::Machine;
use crate::out_box::OutBox;
use crate::rule::{Place, Top};
use crate::steps::{await_turn, end_turn, read_serving, read_ticket, take_ticket, try_ticket};
use crate::view::Start;
use crate::waiting::{wait, wake};
use seen_value::Seen;
use std::sync::Wait;
use std::sync::atomic::AtomicU64;

/// Takes the next ticket in order, `None` where there are no more.
fn line_up<M: Machine, R: Wait>(rt: &R, top: &Top<M>, place: &mut Place<M>) -> Option<u64>
    requires at { IsAt top.now.table_id place.old }
    requires idle { (place.old.me.0.stage ≡ Idle) × (0 < length place.old.me.0.numbers) }
    ensures same { IsSame place.old place.new }
    ensures some { IfSome result (λ ticket. (ticket < 2 ^ 62)
        × IsQueued place.old.me ticket place.new.me) }
    ensures none { IfNone result (IsFull place.old.me place.new.me) }
{
    for _ in rt.forever() {
        let ticket = read_ticket(top, place);
        if ticket == LIMIT {
            return None;
        }
        if take_ticket(top, place, ticket) == ticket {
            return Some(ticket);
        }
    }
    unreachable!()
}

/// Takes a ticket whose turn it is. Where none was to be had for a while, it takes the next in order, so that nobody waits
/// for ever beside a busy neighbour. `None` where there are no more.
pub fn queue<M: Machine, R: Wait>(
    rt: &R,
    top: &Top<M>,
    awaited: &AtomicU64,
    place: &mut Place<M>,
) -> Option<u64>
    requires at { IsAt top.now.table_id place.old }
    requires idle { (place.old.me.0.stage ≡ Idle) × (0 < length place.old.me.0.numbers) }
    ensures same { IsSame place.old place.new }
    ensures some { IfSome result (λ ticket. (ticket < 2 ^ 62)
        × IsQueued place.old.me ticket place.new.me) }
    ensures none { IfNone result (IsFull place.old.me place.new.me) }
{
    for _ in 0..tries() {
        let serving = top.peek(0);
        if serving >= LIMIT {
            break;
        }
        if take_ticket(top, place, serving) == serving {
            return Some(serving);
        }
        wait(rt, top, awaited, serving);
    }
    line_up(rt, top, place)
}

/// The most entries of a history.
pub const LIMIT: u64 = 1 << 62;

// How often a caller tries for the turn that is on before it takes a ticket in order.
fn tries() -> u32
    ensures { result ≡ 64 }
{
    64
}

/// Waits until the seat's turn comes.
pub fn take_turn<M: Machine, R: Wait>(
    rt: &R,
    top: &Top<M>,
    awaited: &AtomicU64,
    place: &mut Place<M>,
    start: &Seen<Start<M>>,
    ticket: u64,
)
    requires at { IsAt top.now.table_id place.old }
    requires waits { place.old.me.0.stage ≡ Waits ticket }
    requires first { place.old.me.0.first ≡ Some start.now.value.machine.value }
    ensures same { IsSame place.old place.new }
    ensures enters { Enters M.step M.Fits M.room place.old.me start.now.value.machine.value ticket
        place.new.me }
{
    for _ in rt.forever() {
        let serving = await_turn(top, place, ticket);
        if serving == ticket {
            return;
        }
        wait(rt, top, awaited, serving);
    }
    unreachable!()
}

/// Takes the ticket whose turn it is, by one read and one exchange.
pub fn seize<M: Machine>(top: &Top<M>, place: &mut Place<M>) -> Result<u64, TryFault>
    requires at { IsAt top.now.table_id place.old }
    requires idle { (place.old.me.0.stage ≡ Idle) × (place.old.me.0.read ≡ None)
        × (0 < length place.old.me.0.numbers) }
    ensures same { IsSame place.old place.new }
    ensures ok { IfOk result (λ ticket. (ticket < 2 ^ 62)
        × IsSeized place.old.me ticket place.new.me) }
    ensures err { IfErr result (λ fault. IsTurnedAway place.old.me fault place.new.me) }
{
    let serving = read_serving(top, place);
    if serving == LIMIT {
        return Err(TryFault::Full);
    }
    let ticket = try_ticket(top, place, serving);
    if ticket == serving {
        Ok(serving)
    } else {
        Err(TryFault::Busy { serving, ticket })
    }
}

/// Enters at once: it took the ticket that it had read of `serving`.
pub fn enter<M: Machine>(top: &Top<M>, place: &mut Place<M>, start: &Seen<Start<M>>, ticket: u64)
    requires at { IsAt top.now.table_id place.old }
    requires waits { place.old.me.0.stage ≡ Waits ticket }
    requires first { place.old.me.0.first ≡ Some start.now.value.machine.value }
    requires read { place.old.me.0.read ≡ Some ticket }
    ensures same { IsSame place.old place.new }
    ensures enters { Enters M.step M.Fits M.room place.old.me start.now.value.machine.value ticket
        place.new.me }
{
    let _start = start;
    await_turn(top, place, ticket);
}

/// Works the request on the machine that the seat has.
pub fn work<M: Machine>(
    top: &Top<M>,
    place: &mut Place<M>,
    start: &Seen<Start<M>>,
    request: &M::Request,
    out: &mut OutBox<M::Answer>,
)
    requires at { IsAt top.now.table_id place.old }
    requires has { HasMachine M.step M.Fits M.room place.old.me start.now.value.machine.value }
    requires fits { M.Fits start.now.value.machine.value request.now }
    requires empty { out.old.items ≡ [] }
    requires places { M.room start.now.value.machine.value ≤ out.old.places }
    ensures same { IsSame place.old place.new × (place.new.me.0 ≡ place.old.me.0) }
    ensures worked { IsWorked M.step M.Fits M.room place.new.me start.now.value.machine.value
        request.now }
    ensures answers { out.new.items ≡ (M.step (run M.step start.now.value.machine.value
        place.old.me.0.seen) request.now).answers }
    ensures places { out.new.places ≡ out.old.places }
{
    let _start = start;
    let desk = place.slot_mut(top, 0);
    desk::work(desk, request, out);
}

/// Works the request, ends the turn, and wakes those that wait for theirs.
pub fn answer<M: Machine>(
    top: &Top<M>,
    awaited: &AtomicU64,
    place: &mut Place<M>,
    start: &Seen<Start<M>>,
    request: &M::Request,
    out: &mut OutBox<M::Answer>,
)
    requires at { IsAt top.now.table_id place.old }
    requires has { HasMachine M.step M.Fits M.room place.old.me start.now.value.machine.value }
    requires fits { M.Fits start.now.value.machine.value request.now }
    requires empty { out.old.items ≡ [] }
    requires places { M.room start.now.value.machine.value ≤ out.old.places }
    ensures same { IsSame place.old place.new }
    ensures ended { EndsTurn M.step start.now.value.machine.value request.now
        place.old.me place.new.me }
    ensures answers { out.new.items ≡ (M.step (run M.step start.now.value.machine.value
        place.old.me.0.seen) request.now).answers }
    ensures places { out.new.places ≡ out.old.places }
{
    work(top, place, start, request, out);
    let ended = end_turn(top, place, start, request);
    wake(top, awaited, ended);
}
