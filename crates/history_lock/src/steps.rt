//! Each step on a lock's table, with what it tells.

ghost use Rattle.std.specs.Prelude.{◌≡◌, ℕ, ◌+◌, ◌^◌, ◌<◌, [], length, Some};
ghost use mathlib.Core.Option.{none};
ghost use Rattle.atomic_table.specs.Table.{step};
ghost use Rattle.history_lock.specs.declared.view.Stage.TheVariants.{Idle, Waits, Holds};
ghost use Rattle.history_lock.specs.Plays.{IsWorked, ticket_read, ticket_taken, serving_read};
ghost use Rattle.history_lock.specs.Plays.{ticket_tried, turn_awaited, EndsTurn, noted};
ghost use Rattle.history_lock.specs.Plays.{with_note, with_seat, Tells};
ghost use Rattle.history_lock.specs.Seats.{IsAt, IsSame, IsIdleOf, IsNoteOf};

use crate::machine::Machine;
use crate::plays::{
    AwaitTurn, EndTurn, Look, NewNote, ReadServing, ReadTicket, TakeNote, TakeSeat, TakeTicket,
    TryTicket,
};
use crate::rule::{Place, Top};
use crate::view::Start;
use seen_value::Seen;

pub fn read_ticket<M: Machine>(top: &Top<M>, place: &mut Place<M>) -> u64
    requires at { IsAt top.now.table_id place.old }
    ensures same { IsSame place.old place.new }
    ensures told { ticket_read (step top.now.table_id.slots 1 0 0 none) place.old.me result
        place.new.me }
{
    top.load::<ReadTicket>(place, 1)
}

pub fn read_serving<M: Machine>(top: &Top<M>, place: &mut Place<M>) -> u64
    requires at { IsAt top.now.table_id place.old }
    ensures same { IsSame place.old place.new }
    ensures told { serving_read (step top.now.table_id.slots 0 0 0 none) place.old.me result
        place.new.me }
{
    top.load::<ReadServing>(place, 0)
}

pub fn take_ticket<M: Machine>(top: &Top<M>, place: &mut Place<M>, ticket: u64) -> u64
    requires at { IsAt top.now.table_id place.old }
    requires idle { (place.old.me.0.stage ≡ Idle) × (0 < length place.old.me.0.numbers) }
    requires below { ticket < 2 ^ 62 }
    ensures same { IsSame place.old place.new }
    ensures told { ticket_taken (step top.now.table_id.slots 1 ticket (ticket + 1) none)
        place.old.me result place.new.me }
{
    top.compare_exchange::<TakeTicket>(place, 1, ticket, ticket + 1)
}

pub fn try_ticket<M: Machine>(top: &Top<M>, place: &mut Place<M>, ticket: u64) -> u64
    requires at { IsAt top.now.table_id place.old }
    requires idle { (place.old.me.0.stage ≡ Idle) × (0 < length place.old.me.0.numbers) }
    requires read { place.old.me.0.read ≡ Some ticket }
    requires below { ticket < 2 ^ 62 }
    ensures same { IsSame place.old place.new }
    ensures told { ticket_tried (step top.now.table_id.slots 1 ticket (ticket + 1) none)
        place.old.me result place.new.me }
{
    top.compare_exchange::<TryTicket>(place, 1, ticket, ticket + 1)
}

pub fn await_turn<M: Machine>(top: &Top<M>, place: &mut Place<M>, ticket: u64) -> u64
    requires at { IsAt top.now.table_id place.old }
    requires waits { place.old.me.0.stage ≡ Waits ticket }
    ensures same { IsSame place.old place.new }
    ensures told { turn_awaited M.step M.Fits M.room (step top.now.table_id.slots 0 0 0 none)
        place.old.me result place.new.me }
{
    let _ticket = ticket;
    top.load::<AwaitTurn<M>>(place, 0)
}

pub fn end_turn<M: Machine>(
    top: &Top<M>,
    place: &mut Place<M>,
    start: &Seen<Start<M>>,
    request: &M::Request,
) -> u64
    requires at { IsAt top.now.table_id place.old }
    requires worked { IsWorked M.step M.Fits M.room place.old.me start.now.value.machine.value
        request.now }
    ensures same { IsSame place.old place.new }
    ensures ended { EndsTurn M.step start.now.value.machine.value request.now
        place.old.me place.new.me }
{
    let (_start, _request) = (start, request);
    top.fetch_add::<EndTurn<M>>(place, 0, 1)
}

pub fn look<M: Machine>(top: &Top<M>, place: &mut Place<M>)
    requires at { IsAt top.now.table_id place.old }
    ensures same { IsSame place.old place.new }
    ensures seen { (place.new.me ≡ (record place.old.me.0 { former = [] }, place.old.me.1))
        × Tells place.old.me.0 }
{
    top.load::<Look>(place, 0);
}

pub fn new_note<M: Machine>(top: &Top<M>, place: &mut Place<M>) -> Place<M>
    requires at { IsAt top.now.table_id place.old }
    ensures same { IsSame place.old place.new × (place.new.me ≡ place.old.me) }
    ensures note { (result.table_id ≡ place.old.table_id)
        × (result.me ≡ (noted place.old.me.0, [])) }
{
    top.split_seat::<NewNote>(place)
}

pub fn take_note<M: Machine>(top: &Top<M>, place: &mut Place<M>, note: Place<M>)
    requires at { IsAt top.now.table_id place.old }
    requires idle { place.old.me.0.stage ≡ Idle }
    requires note { IsNoteOf top.now.table_id note }
    ensures same { IsSame place.old place.new }
    ensures both { place.new.me ≡ (with_note place.old.me.0 note.me.0, place.old.me.1) }
{
    top.join_seat::<TakeNote>(place, note);
}

pub fn take_seat<M: Machine>(top: &Top<M>, place: &mut Place<M>, other: Place<M>)
    requires at { IsAt top.now.table_id place.old }
    requires idle { place.old.me.0.stage ≡ Idle }
    requires other { IsIdleOf top.now.table_id other }
    ensures same { IsSame place.old place.new }
    ensures both { place.new.me ≡ (with_seat place.old.me.0 other.me.0, place.old.me.1) }
{
    top.join_seat::<TakeSeat>(place, other);
}
