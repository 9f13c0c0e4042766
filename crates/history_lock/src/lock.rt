//! The lock.

use crate::machine::Machine;
use crate::rule::LockTable;
use std::marker::Model;
use std::sync::atomic::AtomicU64;

/// A machine that threads share. It works one request at a time, in one order, which each seat sees.
#[derive(Drop)]
pub struct HistoryLock<M: Machine> {
    pub(crate) table: LockTable<M>,
    pub(crate) seats: u32,
    // That of the machine that it was made with.
    pub(crate) room: usize,
    // One more than the highest number of a turn whose end a caller sleeps for, or is about to, or slept for.
    pub(crate) awaited: AtomicU64,
}

impl<M: Machine> Model for HistoryLock<M> {
    ghost use Rattle.history_lock.specs.Locks.{LockData, lock_data, IsLock};

    ghost Value = { LockData M };

    ghost view = { λ lock. lock_data lock.table.shared.table_id lock.table.shared.key };

    ghost invariant = { λ lock. IsLock M.room lock.table.shared.table_id
        lock.table.shared.key lock.seats lock.room };
}

impl<M: Machine> HistoryLock<M> {
    ghost use Rattle.std.specs.Prelude.{◌≡◌};

    /// How many seats it has.
    pub fn seats(&self) -> u32
        ensures { result ≡ self.now.seats }
    {
        self.seats
    }

    /// The most answers that a step gives, of the machine that it was made with and of every later one.
    pub fn room(&self) -> usize
        ensures { result ≡ M.room self.now.first }
    {
        self.room
    }
}
