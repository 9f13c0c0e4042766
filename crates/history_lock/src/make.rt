//! A new lock with its seats.

ghost use Rattle.std.specs.Prelude.{◌≡◌, ◌<◌, ◌≤◌, length, IfOk, Some};
ghost use Rattle.history_lock.specs.declared.view.Stage.TheVariants.{Idle};
ghost use Rattle.history_lock.specs.Plays.{fresh, gave};
ghost use Rattle.history_lock.specs.Seats.{IsAt, IsMakerOf, IsSame};
ghost use Rattle.history_lock.specs.Locks.{AreNew, IsLockOf, new_seat};

use crate::lock::HistoryLock;
use crate::machine::Machine;
use crate::plays::NewSeat;
use crate::rule::{LockTable, Place, Top};
use crate::seat::Seat;
use crate::view::{Desk, Start};
use atomic_table::Table;
use seen_value::Seen;
use std::alloc::{AllocError, Global};
use std::sync::atomic::AtomicU64;

/// A table with the machine, and the place of the maker of its seats.
fn lay<M: Machine + Drop>(
    alloc: Global,
    machine: M,
    start: &Start<M>,
) -> Result<(LockTable<M>, Place<M>), AllocError>
    requires { start.now.machine.value ≡ machine }
    ensures table { IfOk result (λ made. (made.0.shared.table_id.words ≡ 2)
        × (made.0.shared.table_id.slots ≡ 1)) }
    ensures start { IfOk result (λ made. made.0.shared.key ≡ start.now) }
    ensures maker { IfOk result (λ made. IsMakerOf M.step M.Fits M.room
        made.0.shared.table_id made.0.shared.key made.1) }
{
    let mut slots = Vec::with_capacity(alloc, 1)?;
    slots.push_reserved(Desk {
        machine,
        asked: None,
    });
    match Table::new(alloc, &[0, 0], slots, start) {
        Ok(made) => Ok(made),
        Err(_) => Err(AllocError),
    }
}

/// The seat with the next number.
fn give<M: Machine>(top: &Top<M>, maker: &mut Place<M>, start: &Start<M>, number: u32) -> Seat<M>
    requires at { IsAt top.now.table_id maker.old }
    requires next { (maker.old.me.0.given ≡ Some number) × (maker.old.me.0.stage ≡ Idle) }
    requires first { maker.old.me.0.first ≡ Some start.now.machine.value }
    requires below { number < top.now.key.seats }
    ensures same { IsSame maker.old maker.new }
    ensures maker { maker.new.me ≡ (gave maker.old.me.0, maker.old.me.1) }
    ensures seat { result ≡ new_seat top.now.table_id start.now.machine.value number }
{
    Seat {
        place: top.split_seat::<NewSeat>(maker),
        start: Seen::of(start),
    }
}

impl<M: Machine + Drop> HistoryLock<M> {
    /// A lock round a machine, and its seats, the first of which has the number 0. Where there is no memory the machine
    /// is dropped.
    pub fn new(
        alloc: Global,
        machine: M,
        seats: u32,
    ) -> Result<(HistoryLock<M>, Vec<Seat<M>>), AllocError>
        requires seats { (0 < seats) × (seats ≤ 4096) }
        ensures lock { IfOk result (λ made. IsLockOf machine seats made.0) }
        ensures count { IfOk result (λ made. length made.1.items ≡ seats) }
        ensures each { IfOk result (λ made. AreNew made.0.id machine seats made.1.items) }
    {
        let mut all = Vec::with_capacity(alloc, seats as usize)?;
        let start = Start {
            machine: Seen::of(&machine),
            seats,
        };
        let room = machine.room();
        let (table, mut maker) = lay(alloc, machine, &start)?;
        for number in 0..seats {
            all.push_reserved(give(&table.shared, &mut maker, &start, number));
        }
        let awaited = AtomicU64::new(0);
        Ok((
            HistoryLock {
                table,
                seats,
                room,
                awaited,
            },
            all,
        ))
    }
}
