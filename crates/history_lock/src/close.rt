//! The end of a lock.

ghost use Rattle.std.specs.Prelude.{◌≡◌, ◌<◌, ◌≤◌, ◌^◌, ℕ, [], length, All, Contains};
ghost use mathlib.Core.List.{IsPrefix};
ghost use Rattle.history_lock.specs.declared.view.Stage.TheVariants.{Idle};
ghost use Rattle.history_lock.specs.History.{run, IsLegal};
ghost use Rattle.history_lock.specs.Calls.{HasOwn};
ghost use Rattle.history_lock.specs.Closing.{FullByServing, FullByTicket, HasAll, IsOf};
ghost use Rattle.history_lock.specs.ClosingInside.{Covers, IsEnded, IsTaken};
ghost use Rattle.history_lock.specs.Seats.{IsAt, SeatData};

use crate::lock::HistoryLock;
use crate::machine::Machine;
use crate::rule::{LockTable, Place, Top};
use crate::seat::{Closed, Past, Seat};
use crate::steps::{look, take_seat};
use crate::view::Desk;
use seen_value::Seen;

/// The place of a seat, to which others are joined.
fn begin<M: Machine>(seat: Seat<M>) -> Place<M>
    ensures rests { (result.table_id ≡ seat.lock) × (result.me.1 ≡ [])
        × (result.me.0.stage ≡ Idle) }
    ensures taken { IsTaken result.me.0 seat }
{
    let Seat { place, start: _ } = seat;
    place
}

/// Joins a seat.
fn take<M: Machine>(top: &Top<M>, all: &mut Place<M>, seat: Seat<M>)
    requires at { IsAt top.now.table_id all.old }
    requires rests { (all.old.me.1 ≡ []) × (all.old.me.0.stage ≡ Idle) }
    requires own { seat.lock ≡ top.now.table_id }
    ensures rests { (all.new.table_id ≡ all.old.table_id) × (all.new.me.1 ≡ [])
        × (all.new.me.0.stage ≡ Idle) }
    ensures taken { IsTaken all.new.me.0 seat }
    ensures others { (other : SeatData M M.Request M.Answer) → IsTaken all.old.me.0 other
        → IsTaken all.new.me.0 other }
{
    let Seat { place, start: _ } = seat;
    take_seat(top, all, place);
}

/// Joins all seats into one.
fn gather<M: Machine>(top: &Top<M>, seats: Vec<Seat<M>>) -> Place<M>
    requires table { (top.now.table_id.words ≡ 2) × (top.now.table_id.slots ≡ 1) }
    requires own { All (IsOf top.now.table_id) seats.items }
    requires some { 0 < length seats.items }
    ensures place { (result.table_id ≡ top.now.table_id) × (result.me.0.stage ≡ Idle) }
    ensures covers { All (Covers result.me.0) seats.items }
{
    let mut seats = seats;
    let Some(first) = seats.pop() else {
        unreachable!()
    };
    let mut all = begin(first);
    while let Some(seat) = seats.pop() {
        take(top, &mut all, seat);
    }
    seats.destroy_empty();
    look(top, &mut all);
    all
}

/// Takes the table apart, once one place has all numbers.
fn unlock<M: Machine>(table: LockTable<M>, place: Place<M>) -> (M, u64)
    requires table { (table.shared.table_id.words ≡ 2) × (table.shared.table_id.slots ≡ 1) }
    requires place { (place.table_id ≡ table.shared.table_id) × (place.me.0.stage ≡ Idle) }
    requires all { (n : ℕ) → n < table.shared.key.seats → Contains place.me.0.numbers n }
    ensures { IsEnded M.step M.Fits table.shared.key place.me.0 result.0 result.1 }
{
    let mut closed = table.close_with(place);
    let entries = closed.word(0);
    let Desk { machine, asked: _ } = closed.take(0);
    closed.free();
    (machine, entries)
}

impl<M: Machine> HistoryLock<M> {
    /// Takes the lock apart, once all its seats are back: the machine, and the history that it answered.
    pub fn close(self, seats: Vec<Seat<M>>) -> Closed<M>
        requires own { All (IsOf self.id) seats.items }
        requires all { HasAll self.seats seats.items }
        ensures legal { IsLegal M.step M.Fits self.first result.past }
        ensures machine { result.machine ≡ run M.step self.first result.past }
        ensures entries { result.entries ≡ length result.past }
        ensures limit { result.entries ≤ 2 ^ 62 }
        ensures seen { All (λ seat. IsPrefix seat.seen result.past) seats.items }
        ensures own { All (HasOwn result.past) seats.items }
        ensures by_seats { All (λ entry. entry.seat < self.seats) result.past }
        ensures ticket_full { All (FullByTicket result.entries) seats.items }
        ensures serving_full { All (FullByServing result.entries) seats.items }
    {
        let HistoryLock {
            table,
            seats: _,
            room: _,
            awaited: _,
        } = self;
        let place = gather(&table.shared, seats);
        let past = Past {
            last: Seen::of(&place),
        };
        let (machine, entries) = unlock(table, place);
        Closed {
            machine,
            entries,
            past,
        }
    }
}
