//! An acceptor in memory.

ghost use Rattle.std.specs.Prelude.{◌≡◌, ◌^◌, ◌<◌, ◌≤◌, IfOk};
ghost use Rattle.ctl_net.specs.Acceptor.{IfOne};
ghost use Rattle.ctl_net.specs.MemLink.{IsNewLink};
ghost use Rattle.ctl_net.specs.MemAcceptor.{unasked, AreNewLinks, next_answer, without_link};
ghost use Rattle.ctl_net.specs.MemAcceptor.{after_next, after_done, at_most, opened_as};
ghost use Rattle.ctl_net.specs.MemAcceptor.{shown_acceptor};

use crate::memory::queue::take_front;
use crate::{Acceptor, MemLink, Next, Opening};
use ctl_io::{CallCount, FaultCount};
use std::alloc::{AllocError, Global};
use std::marker::Model;

// The most sessions of an acceptor. No vector of links is longer.
const MAX_SESSIONS: usize = 1 << 63;

/// An acceptor in memory. It hands out its links in their order, and what is given back isn't handed out again.
#[derive(Debug, Drop)]
pub struct MemAcceptor {
    // The opening that made it, if a net opened it.
    opening: Option<Opening>,
    waiting: Vec<MemLink>,
    // So many sessions are left.
    sessions: usize,
    // So many links may still be handed out.
    objects: usize,
    out: usize,
    back: Vec<MemLink>,
    calls: CallCount,
    done_faults: FaultCount,
}

impl Model for MemAcceptor {
    ghost use Rattle.ctl_net.specs.MemAcceptor.{AcceptorState};
    ghost use Rattle.ctl_net.specs.MemAcceptorInside.{acceptor_state, BackHasRoom};

    ghost Value = { AcceptorState };

    ghost view = { acceptor_state };

    ghost invariant = { BackHasRoom };
}

impl MemAcceptor {
    /// An acceptor of these links, which are new, with a session for each. It hands out at most `objects` links, and
    /// takes room now to take so many back. `failing` holds the numbers, from 0, of the calls for the next link that
    /// fail.
    pub fn new(
        alloc: Global,
        links: Vec<MemLink>,
        objects: usize,
        failing: Vec<u64>,
    ) -> Result<MemAcceptor, AllocError>
        requires { AreNewLinks links.items }
        ensures { IfOk result (λ acceptor.
            acceptor ≡ unasked links.items objects failing.items) }
    {
        let sessions = links.len();
        if sessions > MAX_SESSIONS {
            return Err(AllocError);
        }
        Ok(MemAcceptor {
            opening: None,
            waiting: links,
            sessions,
            objects,
            out: 0,
            back: Vec::with_capacity(alloc, objects)?,
            calls: CallCount::new(failing),
            done_faults: FaultCount::new(),
        })
    }

    /// Hands out the first link that waits. It fails where the call's number is listed, and for want of objects; `NoMore`
    /// is said only where no session is left.
    pub fn lend(&mut self) -> Next<MemLink>
        ensures answer { result ≡ next_answer self.old }
        ensures after { self.new ≡ after_next result self.old }
        ensures new { IfOne result IsNewLink }
        ensures bound { self.old.sessions ≤ 2 ^ 63 }
    {
        let next = self.first();
        self.calls.count(matches!(&next, Next::Failed));
        next
    }

    /// Keeps a link that this acceptor handed out behind those that were given back before.
    pub fn take_back(&mut self, link: MemLink)
        requires { 0 < self.old.out }
        ensures { self.new ≡ after_done link self.old }
    {
        if link.write_faults() > 0 || link.read_faults() > 0 {
            self.done_faults.raise();
        }
        self.out -= 1;
        self.back.push_reserved(link);
    }

    /// Leaves at most so many sessions.
    pub fn lower(&mut self, sessions: u32)
        ensures { self.new ≡ at_most sessions self.old }
    {
        self.sessions = self.sessions.min(sessions as usize);
    }

    /// Makes it the acceptor of this opening, for at most so many sessions.
    pub fn open(&mut self, opening: Opening, sessions: u32)
        ensures { self.new ≡ opened_as opening sessions self.old }
    {
        self.lower(sessions);
        self.opening = Some(opening);
    }

    /// The links that were given back, in order.
    pub fn back(&self) -> &[MemLink]
        ensures { result.now ≡ self.now.back }
    {
        &self.back
    }

    /// How many sessions are left.
    pub fn sessions(&self) -> usize
        ensures { result ≡ self.now.sessions }
    {
        self.sessions
    }

    /// How often the next link couldn't be handed out. The count stands still at its type's end.
    pub fn next_faults(&self) -> u64
        ensures { result ≡ self.now.calls.faults }
    {
        self.calls.faults()
    }

    /// How often a link with faults was given back. The count stands still at its type's end.
    pub fn done_faults(&self) -> u64
        ensures { result ≡ self.now.done_faults }
    {
        self.done_faults.count()
    }

    // Looks for the next link, without counting the call.
    fn first(&mut self) -> Next<MemLink>
        ensures answer { result ≡ next_answer self.old }
        ensures after { self.new ≡ without_link result self.old }
        ensures new { IfOne result IsNewLink }
        ensures bound { self.old.sessions ≤ 2 ^ 63 }
    {
        if self.calls.next_fails() {
            return Next::Failed;
        }
        if self.sessions == 0 {
            return Next::NoMore;
        }
        if self.objects == 0 {
            return Next::Failed;
        }
        match take_front(&mut self.waiting) {
            Some(link) => {
                self.sessions -= 1;
                self.objects -= 1;
                self.out += 1;
                Next::One(link)
            }
            None => Next::Failed,
        }
    }
}

impl Acceptor for MemAcceptor {
    type L = MemLink;

    ghost shows = { shown_acceptor };

    fn next(&mut self) -> Next<MemLink> {
        self.lend()
    }

    fn done(&mut self, link: MemLink) {
        self.take_back(link);
    }
}
