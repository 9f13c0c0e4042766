//! The rule that every step on a lock's table keeps.

ghost use Rattle.history_lock.specs.Rule.{Kept, maker};

use crate::machine::Machine;
use crate::view::{Desk, Start, View};
use atomic_table::{Seat, Shared, Table, TableRule};
use std::alloc::Global;
use std::marker::PhantomData;

pub struct LockRule<M> {
    machine: PhantomData<M>,
}

impl<M: Machine> TableRule<Desk<M, M::Request>, View<M, M::Request, M::Answer>, Start<M>>
    for LockRule<M> {
    ghost holds = { Kept M.step M.Fits M.room };

    ghost first = { maker M.step M.Fits M.room };
}

pub type LockTable<M> = Table<
    Desk<M, <M as Machine>::Request>,
    View<M, <M as Machine>::Request, <M as Machine>::Answer>,
    Start<M>,
    LockRule<M>,
    Global,
>;

pub type Top<M> = Shared<
    Desk<M, <M as Machine>::Request>,
    View<M, <M as Machine>::Request, <M as Machine>::Answer>,
    Start<M>,
    LockRule<M>,
>;

pub type Place<M> = Seat<
    Desk<M, <M as Machine>::Request>,
    View<M, <M as Machine>::Request, <M as Machine>::Answer>,
>;
