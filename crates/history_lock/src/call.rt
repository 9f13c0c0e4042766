//! Calls on a lock.

ghost use Rattle.std.specs.Prelude.{◌≡◌, ◌≤◌, [], None, OnOk, OnErr, IfOk, IfErr};
ghost use Rattle.history_lock.specs.History.{IsLegal};
ghost use Rattle.history_lock.specs.Calls.{AddsOwn, FoundFull, IsNumbered, IsRefused};
ghost use Rattle.history_lock.specs.Calls.{OnlyCalled, OnlyTried, SeesAnswers};
ghost use Rattle.history_lock.specs.CallsInside.{FoundFullAt, IsMadeAt, IsRefusedAt};
ghost use Rattle.history_lock.specs.CallsInside.{OnlyCalledAt, OnlyTriedAt};
ghost use Rattle.history_lock.specs.Seats.{IsAt, IsResting, RestsAgain};

use crate::fault::{CallFault, TryFault};
use crate::lock::HistoryLock;
use crate::machine::Machine;
use crate::out_box::OutBox;
use crate::rule::{Place, Top};
use crate::seat::Seat;
use crate::turns::{answer, enter, queue, seize, take_turn};
use crate::view::Start;
use seen_value::Seen;
use std::sync::Wait;
use std::sync::atomic::AtomicU64;

/// One call, at a seat's place.
fn call_at<M: Machine, R: Wait>(
    rt: &R,
    top: &Top<M>,
    awaited: &AtomicU64,
    place: &mut Place<M>,
    start: &Seen<Start<M>>,
    request: &M::Request,
    out: &mut OutBox<M::Answer>,
) -> Result<u64, CallFault>
    requires at { IsAt top.now.table_id place.old }
    requires rests { IsResting start.now.value.machine.value place.old }
    requires fits { M.Fits start.now.value.machine.value request.now }
    requires empty { out.old.items ≡ [] }
    requires places { M.room start.now.value.machine.value ≤ out.old.places }
    ensures rests { RestsAgain start.now.value.machine.value place.old place.new }
    ensures made { IfOk result (λ n. IsMadeAt M.step M.Fits start.now.value.machine.value place.old
        n request.now out.new.items place.new) }
    ensures rest { OnOk result (OnlyCalledAt start.now.value.machine.value place.old place.new) }
    ensures full { OnErr result (FoundFullAt start.now.value.machine.value place.old place.new) }
    ensures kept { OnErr result (out.new ≡ out.old) }
    ensures places { out.new.places ≡ out.old.places }
{
    let Some(ticket) = queue(rt, top, awaited, place) else {
        return Err(CallFault::Full);
    };
    take_turn(rt, top, awaited, place, start, ticket);
    answer(top, awaited, place, start, request, out);
    Ok(ticket)
}

/// One try, at a seat's place.
fn try_at<M: Machine>(
    top: &Top<M>,
    awaited: &AtomicU64,
    place: &mut Place<M>,
    start: &Seen<Start<M>>,
    request: &M::Request,
    out: &mut OutBox<M::Answer>,
) -> Result<u64, TryFault>
    requires at { IsAt top.now.table_id place.old }
    requires rests { IsResting start.now.value.machine.value place.old }
    requires fits { M.Fits start.now.value.machine.value request.now }
    requires empty { out.old.items ≡ [] }
    requires places { M.room start.now.value.machine.value ≤ out.old.places }
    ensures rests { RestsAgain start.now.value.machine.value place.old place.new }
    ensures made { IfOk result (λ n. IsMadeAt M.step M.Fits start.now.value.machine.value place.old
        n request.now out.new.items place.new) }
    ensures rest { OnOk result (OnlyTriedAt start.now.value.machine.value place.old place.new) }
    ensures refused { IfErr result (λ fault.
        IsRefusedAt start.now.value.machine.value place.old fault place.new) }
    ensures kept { OnErr result (out.new ≡ out.old) }
    ensures places { out.new.places ≡ out.old.places }
{
    let ticket = seize(top, place)?;
    enter(top, place, start, ticket);
    answer(top, awaited, place, start, request, out);
    Ok(ticket)
}

impl<M: Machine> HistoryLock<M> {
    /// Asks this of the machine, once all that came before was answered, and answers the number of the entry that this
    /// makes of the history.
    pub fn call<R: Wait>(
        &self,
        rt: &R,
        seat: &mut Seat<M>,
        request: &M::Request,
        out: &mut OutBox<M::Answer>,
    ) -> Result<u64, CallFault>
        requires seat { seat.old.lock ≡ self.now.id }
        requires fits { M.Fits seat.old.first request.now }
        requires empty { out.old.items ≡ [] }
        requires places { M.room seat.old.first ≤ out.old.places }
        ensures legal { OnOk result (IsLegal M.step M.Fits seat.old.first seat.new.seen) }
        ensures number { IfOk result (λ n. IsNumbered n seat.new.seen) }
        ensures seen { OnOk result (SeesAnswers seat.old request.now out.new.items seat.new) }
        ensures own { OnOk result (AddsOwn seat.old request.now out.new.items seat.new) }
        ensures rest { OnOk result (OnlyCalled seat.old seat.new) }
        ensures full { OnErr result (FoundFull seat.old seat.new) }
        ensures kept { OnErr result (out.new ≡ out.old) }
        ensures places { out.new.places ≡ out.old.places }
    {
        call_at(
            rt,
            &self.table.shared,
            &self.awaited,
            &mut seat.place,
            &seat.start,
            request,
            out,
        )
    }

    /// The same, but it never waits: where another caller has the machine, or waits for it, the answer is `Busy`.
    pub fn try_call(
        &self,
        seat: &mut Seat<M>,
        request: &M::Request,
        out: &mut OutBox<M::Answer>,
    ) -> Result<u64, TryFault>
        requires seat { seat.old.lock ≡ self.now.id }
        requires fits { M.Fits seat.old.first request.now }
        requires empty { out.old.items ≡ [] }
        requires places { M.room seat.old.first ≤ out.old.places }
        ensures legal { OnOk result (IsLegal M.step M.Fits seat.old.first seat.new.seen) }
        ensures number { IfOk result (λ n. IsNumbered n seat.new.seen) }
        ensures seen { OnOk result (SeesAnswers seat.old request.now out.new.items seat.new) }
        ensures own { OnOk result (AddsOwn seat.old request.now out.new.items seat.new) }
        ensures rest { OnOk result (OnlyTried seat.old seat.new) }
        ensures refused { IfErr result (λ fault. IsRefused seat.old fault seat.new) }
        ensures unread { (seat.old.read ≡ None) × (seat.new.read ≡ None) }
        ensures kept { OnErr result (out.new ≡ out.old) }
        ensures places { out.new.places ≡ out.old.places }
    {
        try_at(
            &self.table.shared,
            &self.awaited,
            &mut seat.place,
            &seat.start,
            request,
            out,
        )
    }
}
