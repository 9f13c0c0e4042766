//! What the table of a lock has: the words, the slot, and what each seat knows.
//! Word 0 is `serving`, the length of the history, and word 1 is `ticket`. The one slot has the machine.

use crate::entry::Entry;
use seen_value::Seen;
use std::collections::LinkedList;

/// What a lock is told once.
#[derive(Drop)]
pub struct Start<M> {
    pub machine: Seen<M>,
    pub seats: u32,
}

/// The machine, and what was asked of it last.
#[derive(Drop)]
pub struct Desk<M, Q> {
    pub machine: M,
    // kit: `then` of a `Play` sees no argument of its call, as what was asked; so that lies in the slot too.
    pub asked: Option<Seen<Q>>,
}

/// How far a seat is in a call.
pub enum Stage {
    Idle,
    /// It has this ticket, and waits for its turn.
    Waits(u64),
    /// It has the machine, by this ticket.
    Holds(u64),
}

/// What a seat saw before another was joined to it, and under which numbers it made entries. No value of it is made.
pub struct Former<Q, A> {
    pub numbers: LinkedList<u32>,
    pub seen: LinkedList<Entry<Q, A>>,
}

/// What a seat knows. No value of it is made.
pub struct View<M, Q, A> {
    /// The machine that the lock was made with. A view that was joined to another has none.
    // kit: `spent` of a `Join` is one constant and no `λ v. ..`, and there is no machine to put into it; so `M` is optional.
    pub first: Option<M>,
    /// The numbers under which it makes entries: one in a seat, none in a note.
    pub numbers: LinkedList<u32>,
    /// How many numbers were given, known to the maker of the seats alone.
    pub given: Option<u32>,
    /// A front of the history.
    pub seen: LinkedList<Entry<Q, A>>,
    /// What those saw that were joined to it, and it before, until it looks again.
    pub former: LinkedList<Former<Q, A>>,
    pub stage: Stage,
    /// What it read of `serving` in a try that isn't over.
    pub read: Option<u64>,
    /// What its refused tries read of `serving` and found at `ticket`.
    pub tried: LinkedList<(u64, u64)>,
    /// Whether it last read 2^62 of `ticket`.
    pub ticket_full: bool,
    /// Whether it last read 2^62 of `serving`.
    pub serving_full: bool,
}
