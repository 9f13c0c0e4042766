//! What each step tells.

ghost use Rattle.history_lock.specs.Plays.{ticket_read, ticket_taken, serving_read, ticket_tried};
ghost use Rattle.history_lock.specs.Plays.{turn_awaited, turn_ended, gave, given_to, noted, spent};
ghost use Rattle.history_lock.specs.Plays.{with_note, with_seat, looked};

use crate::machine::Machine;
use crate::view::{Desk, View};
use atomic_table::{Join, Play, Split};
use std::marker::PhantomData;

pub struct ReadTicket;

impl<M, Q, A> Play<Desk<M, Q>, View<M, Q, A>> for ReadTicket {
    ghost then = { ticket_read };
}

pub struct TakeTicket;

impl<M, Q, A> Play<Desk<M, Q>, View<M, Q, A>> for TakeTicket {
    ghost then = { ticket_taken };
}

pub struct ReadServing;

impl<M, Q, A> Play<Desk<M, Q>, View<M, Q, A>> for ReadServing {
    ghost then = { serving_read };
}

pub struct TryTicket;

impl<M, Q, A> Play<Desk<M, Q>, View<M, Q, A>> for TryTicket {
    ghost then = { ticket_tried };
}

pub struct AwaitTurn<M> {
    machine: PhantomData<M>,
}

impl<M: Machine> Play<Desk<M, M::Request>, View<M, M::Request, M::Answer>> for AwaitTurn<M> {
    ghost then = { turn_awaited M.step M.Fits M.room };
}

pub struct EndTurn<M> {
    machine: PhantomData<M>,
}

impl<M: Machine> Play<Desk<M, M::Request>, View<M, M::Request, M::Answer>> for EndTurn<M> {
    ghost then = { turn_ended M.step M.Fits M.room };
}

pub struct NewSeat;

impl<M, Q, A> Split<View<M, Q, A>> for NewSeat {
    ghost left = { gave };

    ghost right = { given_to };
}

pub struct NewNote;

impl<M, Q, A> Split<View<M, Q, A>> for NewNote {
    ghost left = { λ v. v };

    ghost right = { noted };
}

pub struct TakeNote;

impl<M, Q, A> Join<View<M, Q, A>> for TakeNote {
    ghost both = { with_note };

    ghost spent = { spent };
}

pub struct TakeSeat;

impl<M, Q, A> Join<View<M, Q, A>> for TakeSeat {
    ghost both = { with_seat };

    ghost spent = { spent };
}

pub struct Look;

impl<M, Q, A> Play<Desk<M, Q>, View<M, Q, A>> for Look {
    ghost then = { looked };
}
