//! The read half of a link in memory.

ghost use Rattle.std.specs.Prelude.{◌≡◌, ◌<◌, ◌≤◌, [], ◌∷◌, Some, IfOk, IfSome};
ghost use Rattle.std.specs.Prelude.{length, drop, take, min};
ghost use Rattle.ctl_io.specs.Source.{AreNext};
ghost use Rattle.ctl_net.specs.Link.{given};
ghost use Rattle.ctl_net.specs.LinkEvents.{bytes_of, ahead, first_answer, most_reads};
ghost use Rattle.ctl_net.specs.LinkEvents.{is_empty_piece, IsAhead};
ghost use Rattle.ctl_net.specs.MemLink.{unread, input_answer, after_first, after_input};

use crate::{LinkEvent, LinkRead};
use ctl_io::{CallCount, FaultCount};
use std::alloc::{AllocError, Global};
use std::marker::Model;

// A read that gave bytes or was idle.
#[derive(Clone, Copy, Debug)]
pub(crate) struct PastRead {
    pub(crate) room: usize,
    pub(crate) count: usize,
}

/// The events of a link in memory, and what was read of them.
#[derive(Debug, Drop)]
pub(crate) struct MemInput {
    events: Vec<LinkEvent>,
    // The next event, and how many of its bytes were given.
    at: usize,
    given: usize,
    told: Vec<PastRead>,
    // Counted as faults are.
    idles: FaultCount,
    calls: CallCount,
}

impl Model for MemInput {
    ghost use Rattle.ctl_net.specs.MemLink.{InputState};
    ghost use Rattle.ctl_net.specs.InputInside.{input_state, IsAt};

    ghost Value = { InputState };

    ghost view = { input_state };

    ghost invariant = { IsAt };
}

impl MemInput {
    /// Events that weren't read yet. It takes room now for the reads that it tells. `failing` holds the numbers, from 0,
    /// of the reads that fail.
    pub(crate) fn new(
        alloc: Global,
        events: Vec<LinkEvent>,
        failing: Vec<u64>,
    ) -> Result<MemInput, AllocError>
        ensures { IfOk result (λ input. input ≡ unread events.items failing.items) }
    {
        let Some(reads) = count_reads(&events) else {
            return Err(AllocError);
        };
        Ok(MemInput {
            events,
            at: 0,
            given: 0,
            told: Vec::with_capacity(alloc, reads)?,
            idles: FaultCount::new(),
            calls: CallCount::new(failing),
        })
    }

    /// Gives what the next event has, as much as there is room for, or fails where the read's number is listed.
    #[tactic(auto, using(crate::proofs::LinkEventsLemmas::is_ahead, crate::proofs::LinkEventsLemmas::bytes_ahead))]
    pub(crate) fn give(&mut self, into: &mut [u8]) -> LinkRead
        requires { 0 < length into.old }
        ensures answer { result ≡ input_answer self.old (length into.old) }
        ensures after { self.new ≡ after_input self.old (length into.old) into.new }
        ensures bytes { AreNext (given result) into.new (Some (bytes_of self.old.events)) }
    {
        let failed = self.calls.next_fails();
        self.calls.count(failed);
        if failed {
            return LinkRead::Failed;
        }
        self.pass_empty();
        self.give_first(into)
    }

    pub(crate) fn faults(&self) -> u64
        ensures { result ≡ self.now.calls.faults }
    {
        self.calls.faults()
    }

    pub(crate) fn idles(&self) -> u64
        ensures { result ≡ self.now.idles }
    {
        self.idles.count()
    }

    // Passes over the empty pieces that come next.
    fn pass_empty(&mut self)
        ensures { self.new ≡ record self.old { events = ahead self.old.events } }
    {
        if self.given == 0 {
            self.at = first_from(&self.events, self.at);
        }
    }

    // Gives what the first event has, which is no empty piece.
    fn give_first(&mut self, into: &mut [u8]) -> LinkRead
        requires some { 0 < length into.old }
        requires first { IsAhead self.old.events }
        ensures answer { result ≡ first_answer self.old.events (length into.old) }
        ensures after { self.new ≡ after_first self.old (length into.old) into.new }
        ensures bytes { AreNext (given result) into.new (Some (bytes_of self.old.events)) }
    {
        let room = into.len();
        let Some(event) = self.events.get(self.at) else {
            return LinkRead::End;
        };
        match event {
            LinkEvent::Idle => {
                self.at += 1;
                self.idles.raise();
                self.told.push_reserved(PastRead { room, count: 0 });
                LinkRead::Idle
            }
            LinkEvent::Piece(bytes) => {
                let rest = &bytes.as_slice()[self.given..];
                let n = copy_front(rest, into);
                let is_last = n == rest.len();
                self.told.push_reserved(PastRead { room, count: n });
                if is_last {
                    self.at += 1;
                    self.given = 0;
                    return LinkRead::Got(n);
                }
                self.given += n;
                LinkRead::Got(n)
            }
        }
    }
}

// The place of the first event from `at` on that isn't an empty piece, or the end.
fn first_from(events: &[LinkEvent], at: usize) -> usize
    requires { at ≤ length events.now }
    ensures within { result ≤ length events.now }
    ensures ahead { drop result events.now ≡ ahead (drop at events.now) }
{
    let mut next = at;
    while next < events.len() && is_empty_piece(&events[next]) {
        next += 1;
    }
    next
}

fn is_empty_piece(event: &LinkEvent) -> bool
    ensures { result ≡ is_empty_piece event.now }
{
    match event {
        LinkEvent::Piece(bytes) => bytes.as_slice().is_empty(),
        LinkEvent::Idle => false,
    }
}

// How many reads give bytes or are idle, at most, where the number fits its type.
fn count_reads(events: &[LinkEvent]) -> Option<usize>
    ensures { IfSome result (λ n. n ≡ most_reads events.now) }
{
    let mut count: usize = 0;
    for event in events {
        count = count.checked_add(reads_of(event))?;
    }
    Some(count)
}

fn reads_of(event: &LinkEvent) -> usize
    ensures { result ≡ most_reads (event.now ∷ []) }
{
    match event {
        LinkEvent::Piece(bytes) => bytes.as_slice().len(),
        LinkEvent::Idle => 1,
    }
}

// Copies as much of the front of `bytes` as there is room for, and answers how much that is.
fn copy_front(bytes: &[u8], into: &mut [u8]) -> usize
    ensures count { result ≡ min (length into.old) (length bytes.now) }
    ensures front { take result into.new ≡ take result bytes.now }
{
    let n = into.len().min(bytes.len());
    into[..n].copy_from_slice(&bytes[..n]);
    n
}
