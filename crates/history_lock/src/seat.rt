//! A caller's place at a lock, what it can hand on, and what is left at the end.

use crate::machine::Machine;
use crate::rule::Place;
use crate::view::Start;
use seen_value::Seen;
use std::marker::Model;

/// A caller's place at a lock, under a number of its own. It has no bytes. Contracts see what was seen through it.
#[derive(Drop)]
pub struct Seat<M: Machine> {
    pub(crate) place: Place<M>,
    // What the lock was made with.
    pub(crate) start: Seen<Start<M>>,
}

impl<M: Machine> Model for Seat<M> {
    ghost use Rattle.history_lock.specs.Seats.{SeatData, seat_data, IsResting};

    ghost Value = { SeatData M M.Request M.Answer };

    ghost view = { λ seat. seat_data seat.start.value.machine.value seat.place };

    ghost invariant = { λ seat. IsResting seat.start.value.machine.value seat.place };
}

/// What a seat has seen, to be handed to another thread. It has no bytes.
#[derive(Drop)]
pub struct Note<M: Machine> {
    pub(crate) place: Place<M>,
}

impl<M: Machine> Model for Note<M> {
    ghost use Rattle.history_lock.specs.Seats.{NoteData, note_data, IsNote};

    ghost Value = { NoteData M.Request M.Answer };

    ghost view = { λ note. note_data note.place };

    ghost invariant = { λ note. IsNote note.place };
}

/// The history of a closed lock, which contracts see. It has no bytes.
#[derive(Drop)]
pub struct Past<M: Machine> {
    pub(crate) last: Seen<Place<M>>,
}

impl<M: Machine> Model for Past<M> {
    ghost use Rattle.std.specs.Prelude.{List};
    ghost use Rattle.history_lock.specs.declared.entry.Entry.{Entry};

    ghost Value = { List (Entry M.Request M.Answer) };

    ghost view = { λ past. past.last.value.me.0.seen };
}

/// What is left of a lock: the machine, how many entries its history has, and that history.
#[derive(Drop)]
pub struct Closed<M: Machine> {
    pub machine: M,
    pub entries: u64,
    pub past: Past<M>,
}
