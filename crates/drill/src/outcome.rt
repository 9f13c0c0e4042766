//! What the workers of a drill left, all together.

ghost use Rattle.std.specs.Prelude.{◌≡◌, ◌*◌, ◌<◌, ◌≤◌, ◌%◌, ◌^◌, ℕ, length, All, IfOk, map};
ghost use Rattle.std.specs.List.{sum_by};
ghost use mathlib.Core.List.{IsPrefix};
ghost use Rattle.history_lock.specs.Calls.{HasOwn};
ghost use Rattle.history_lock.specs.Closing.{FullByTicket, HasAll, IsOf};
ghost use Rattle.history_lock.specs.History.{IsLegal};
ghost use Rattle.plant_config.specs.DrillPlant.{drill_plant, drill_panel_limit};
ghost use Rattle.plant_core.specs.State.{start};
ghost use Rattle.drill.specs.WorkerInside.{EachWorker, HasDrilled, WasServed, seats_of, traces_of};
ghost use Rattle.drill.specs.Drilled.{most_messages};

use crate::laws::messages_ask_the_plant;
use crate::worker::{Worker, Workload};
use history_lock::{Closed, HistoryLock, Machine, Past, Seat};
use plant_core::PlantState;
use std::alloc::{AllocError, Global};

// The good and the bad frames that came, the traces, one behind the other, and the history of the lock.
#[derive(Drop)]
pub(crate) struct Outcome {
    pub(crate) goods: u64,
    pub(crate) bads: u64,
    pub(crate) trace: Vec<u8>,
    pub(crate) past: Past<PlantState>,
}

// What workers left that have served their sessions. The lock is closed with their seats. What they left together, their
// history, shows that no room was used up, so that each session ended as its link did.
pub(crate) fn gather(
    alloc: Global,
    lock: HistoryLock<PlantState>,
    workers: Vec<Worker<'_>>,
    load: &Workload,
) -> Result<Outcome, AllocError>
    requires served { EachWorker (WasServed load.now lock) workers.items }
    requires count { length workers.items ≡ load.now.panels }
    requires seats { lock.seats ≡ load.now.panels }
    requires first { lock.first ≡ start (drill_plant load.now.panels) }
    requires some { 1 ≤ load.now.panels }
    requires most { load.now.panels ≤ drill_panel_limit }
    requires each { load.now.each ≤ most_messages }
    ensures { IfOk result (HasDrilled load.now) }
{
    let goods = goods_of(workers.as_slice());
    let bads = bads_of(workers.as_slice());
    let trace = joined(alloc, workers.as_slice())?;
    let seats = into_seats(alloc, workers)?;
    messages_ask_the_plant();
    let past = past_of(lock, seats);
    Ok(Outcome {
        goods,
        bads,
        trace,
        past,
    })
}

// How many good frames came, and how many bad ones. That the sums fit is known once the lock was closed.
fn goods_of(workers: &[Worker<'_>]) -> u64
    ensures { result ≡ sum_by (λ worker. worker.goods) workers.now % 2 ^ 64 }
{
    let mut total: u64 = 0;
    for worker in workers {
        total = total.wrapping_add(worker.goods);
    }
    total
}

fn bads_of(workers: &[Worker<'_>]) -> u64
    ensures { result ≡ sum_by (λ worker. worker.bads) workers.now % 2 ^ 64 }
{
    let mut total: u64 = 0;
    for worker in workers {
        total = total.wrapping_add(worker.bads);
    }
    total
}

// The traces, one behind the other.
fn joined(alloc: Global, workers: &[Worker<'_>]) -> Result<Vec<u8>, AllocError>
    ensures { IfOk result (λ text. text.items ≡ traces_of workers.now) }
{
    let mut text = Vec::new(alloc);
    for worker in workers {
        text.extend_from_slice(worker.trace.written())?;
    }
    Ok(text)
}

// The seats, in order.
fn into_seats(alloc: Global, workers: Vec<Worker<'_>>) -> Result<Vec<Seat<PlantState>>, AllocError>
    ensures { IfOk result (λ seats. seats.items ≡ seats_of workers.entry.items) }
{
    let mut seats = Vec::with_capacity(alloc, workers.len())?;
    let mut left = workers.into_iter();
    while let Some(worker) = left.next() {
        seats.push_reserved(worker.into_seat());
    }
    left.destroy_empty();
    Ok(seats)
}

// The history that a lock answered, closed with its seats. Its machine is let go.
fn past_of<M: Machine + Drop>(lock: HistoryLock<M>, seats: Vec<Seat<M>>) -> Past<M>
    requires own { All (IsOf lock.id) seats.items }
    requires all { HasAll lock.seats seats.items }
    ensures legal { IsLegal M.step M.Fits lock.first result }
    ensures few { length result ≤ 2 ^ 62 }
    ensures seen { All (λ seat. IsPrefix seat.seen result) seats.items }
    ensures own { All (HasOwn result) seats.items }
    ensures by_seats { All (λ entry. entry.seat < lock.seats) result }
    ensures full { All (FullByTicket (length result)) seats.items }
{
    let Closed {
        machine: _,
        entries: _,
        past,
    } = lock.close(seats);
    past
}
