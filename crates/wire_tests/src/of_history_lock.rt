//! A lock round a counter, in one thread and in two, and the laws at it.

ghost use Rattle.std.specs.Prelude.{◌≡◌, ◌≤◌, ◌+◌, ◌%◌, ◌^◌, [], ◌∷◌, IfOk};

use history_lock::{
    Closed, HistoryLock, Machine, OutBox, Seat, fronts_are_legal, requests_fix_answers,
    runs_compose, steps_stay_legal,
};
use std::alloc::{AllocError, Global};
use std::hint::spin_loop;
use std::process::Abort;
use std::sync::Wait;
use std::test::Fail;
use std::thread::{Threads, join};

/// It counts its requests from 0 on, and answers with the count before. Each takes it so long.
#[derive(Drop)]
struct Counter {
    count: u64,
    pause: u32,
}

impl Machine for Counter {
    type Request = ();

    type Answer = u64;

    ghost step = { λ counter _. record {
      state = record counter { count = (counter.count + 1) % 2 ^ 64 };
      answers = counter.count ∷ [];
    } };

    ghost Fits = { λ counter _. Unit {0} };

    ghost room = { λ counter. 1 };

    fn room(&self) -> usize {
        1
    }

    fn fits(&self, _request: &()) -> bool {
        true
    }

    fn step(&mut self, _request: &(), out: &mut OutBox<u64>) {
        for _ in 0..self.pause {
            spin_loop();
        }
        out.put(self.count);
        self.count = self.count.wrapping_add(1);
    }
}

#[test]
fn the_laws_are_of_any_machine() {
    fronts_are_legal::<Counter>();
    steps_stay_legal::<Counter>();
    runs_compose::<Counter>();
    requests_fix_answers::<Counter>();
}

/// A lock round a counter, with two seats.
fn counted(
    alloc: Global,
    pause: u32,
) -> Result<(HistoryLock<Counter>, Seat<Counter>, Seat<Counter>), AllocError>
    ensures seats { IfOk result (λ made. made.0.seats ≡ 2) }
    ensures first { IfOk result (λ made. (made.1.lock ≡ made.0.id) × (made.1.number ≡ 0)) }
    ensures second { IfOk result (λ made. (made.2.lock ≡ made.0.id) × (made.2.number ≡ 1)) }
{
    let (lock, mut seats) = HistoryLock::new(alloc, Counter { count: 0, pause }, 2)?;
    let Some(second) = seats.pop() else {
        unreachable!()
    };
    let Some(first) = seats.pop() else {
        unreachable!()
    };
    Ok((lock, first, second))
}

/// Closes a lock with two seats.
fn closed(
    alloc: Global,
    lock: HistoryLock<Counter>,
    first: Seat<Counter>,
    second: Seat<Counter>,
) -> Result<Closed<Counter>, AllocError>
    requires seats { lock.seats ≡ 2 }
    requires first { (first.lock ≡ lock.id) × (first.number ≡ 0) }
    requires second { (second.lock ≡ lock.id) × (second.number ≡ 1) }
{
    let mut seats = Vec::with_capacity(alloc, 2)?;
    seats.push_reserved(second);
    seats.push_reserved(first);
    Ok(lock.close(seats))
}

/// Both seats of a new lock call, the first one tries, and the second then sees what the first has seen.
fn are_answered<R: Wait + Abort>(
    rt: &R,
    lock: &HistoryLock<Counter>,
    first: &mut Seat<Counter>,
    second: &mut Seat<Counter>,
    out: &mut OutBox<u64>,
)
    requires first { first.old.lock ≡ lock.now.id }
    requires second { second.old.lock ≡ lock.now.id }
    requires empty { out.old.items ≡ [] }
    requires places { 1 ≤ out.old.places }
    ensures first { (first.new.lock ≡ first.old.lock) × (first.new.number ≡ first.old.number) }
    ensures second { (second.new.lock ≡ second.old.lock)
        × (second.new.number ≡ second.old.number) }
{
    assert!(rt; lock.call(rt, first, &(), out) == Ok(0) && out.items() == [0].as_slice());
    out.clear();
    assert!(rt; lock.call(rt, second, &(), out) == Ok(1));
    out.clear();
    assert!(rt; lock.try_call(first, &(), out) == Ok(2) && out.items() == [2].as_slice());
    let note = lock.note(first);
    lock.meet(second, note);
}

#[test]
fn two_seats_call_and_try(rt: HostRuntime) -> Result<(), Fail> {
    let (lock, mut first, mut second) = counted(rt.alloc(), 0)?;
    let mut out = OutBox::new(rt.alloc(), lock.room())?;
    assert!(rt; lock.seats() == 2);
    are_answered(&rt, &lock, &mut first, &mut second, &mut out);
    let Closed {
        machine,
        entries,
        past: _,
    } = closed(rt.alloc(), lock, first, second)?;
    assert!(rt; entries == 3 && machine.count == 3);
    Ok(())
}

/// Asks once, by a call or by a try, and answers the number that it is answered with.
fn ask<R: Wait>(
    rt: &R,
    lock: &HistoryLock<Counter>,
    seat: &mut Seat<Counter>,
    out: &mut OutBox<u64>,
    waits: bool,
) -> Option<u64>
    requires lock { seat.old.lock ≡ lock.now.id }
    requires places { 1 ≤ out.old.places }
    ensures seat { (seat.new.lock ≡ seat.old.lock) × (seat.new.number ≡ seat.old.number) }
    ensures places { out.new.places ≡ out.old.places }
{
    out.clear();
    let answer = if waits {
        lock.call(rt, seat, &(), out).ok()
    } else {
        lock.try_call(seat, &(), out).ok()
    };
    match answer {
        Some(number) if out.items() == [number].as_slice() => Some(number),
        _ => None,
    }
}

/// Asks so often, and answers how often it was answered with a number above the last.
fn asks<R: Wait>(
    rt: &R,
    alloc: Global,
    lock: &HistoryLock<Counter>,
    mut seat: Seat<Counter>,
    count: u64,
    waits: bool,
) -> (Seat<Counter>, u64)
    requires { seat.lock ≡ lock.now.id }
    ensures { (result.0.lock ≡ seat.lock) × (result.0.number ≡ seat.number) }
{
    let Ok(mut out) = OutBox::new(alloc, 1) else {
        return (seat, 0);
    };
    let mut answered = 0u64;
    let mut least = 0;
    for _ in 0..count {
        if let Some(number) = ask(rt, lock, &mut seat, &mut out, waits) {
            answered = answered.saturating_add(u64::from(number >= least));
            least = number.saturating_add(1);
        }
    }
    (seat, answered)
}

/// Two threads ask as often each. Answers how many entries there are, what was counted, and how often they were answered.
fn by_two<R: Threads + Wait + Sync>(
    rt: &R,
    alloc: Global,
    count: u64,
    pause: u32,
    waits: bool,
) -> Result<(u64, u64, u64), AllocError> {
    let (lock, first, second) = counted(alloc, pause)?;
    let shared = &lock;
    let ((first, one), (second, two)) = join(
        rt,
        || -> (Seat<Counter>, u64)
            requires { first.lock ≡ shared.now.id }
            ensures { (result.0.lock ≡ first.lock) × (result.0.number ≡ first.number) }
        { asks(rt, alloc, shared, first, count, waits) },
        || -> (Seat<Counter>, u64)
            requires { second.lock ≡ shared.now.id }
            ensures { (result.0.lock ≡ second.lock) × (result.0.number ≡ second.number) }
        { asks(rt, alloc, shared, second, count, waits) },
    );
    let Closed {
        machine,
        entries,
        past: _,
    } = closed(alloc, lock, first, second)?;
    Ok((entries, machine.count, one.saturating_add(two)))
}

#[test]
fn two_threads_call_and_whoever_sleeps_is_woken(rt: HostRuntime) -> Result<(), Fail> {
    // How often each calls, how long a call takes, and how often all together are answered. If each calls once, whoever sleeps
    // sleeps for the end of the only other turn.
    for (count, pause, all) in [
        (1000, 0, 2000),
        (50, 30_000, 100),
        (1, 1_000_000, 2),
        (1, 1_000_000, 2),
        (1, 1_000_000, 2),
    ] {
        let answered = by_two(&rt, rt.alloc(), count, pause, true)?;
        assert!(rt; answered == (all, all, all));
    }
    Ok(())
}

#[test]
fn two_threads_try_and_give_up(rt: HostRuntime) -> Result<(), Fail> {
    let (entries, count, answered) = by_two(&rt, rt.alloc(), 500, 0, false)?;
    assert!(rt; entries > 0 && count == entries && answered == entries);
    Ok(())
}
