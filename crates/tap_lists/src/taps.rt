//! The lists.

ghost use Rattle.std.specs.Prelude.{◌≡◌, ◌+◌, ◌<◌, ℕ, [], length, replicate, slice_get, IfOk};
ghost use Rattle.tap_lists.specs.Lists.{list_of, linked, unlinked, IsUnder, IsLoose, IsHeadOf};
ghost use Rattle.tap_lists.specs.Lists.{IsNext, StandOnce};

use crate::links::{put_first, read, take_out, value_at};
use crate::steps::Steps;
use std::alloc::{AllocError, Global};
use std::marker::Model;
use std::sync::ledger::Ledger;

/// Members by number, each under one head or under none. A contract sees the list of members of each head, the last
/// linked first, and how many members there are.
#[derive(Debug, Drop)]
pub struct Taps {
    /// The first member of each head, where it has one.
    firsts: Vec<Option<u32>>,
    /// The head of each member, where it is under one.
    heads: Vec<Option<u32>>,
    /// What stands behind each member in its list.
    afters: Vec<Option<u32>>,
    /// What stands before each member in its list.
    befores: Vec<Option<u32>>,
}

impl Model for Taps {
    ghost use Rattle.tap_lists.specs.Lists.{Lists, code};
    ghost use Rattle.tap_lists.specs.ListsInside.{lists_of, IsHeld};

    ghost Value = { Lists };

    ghost coded = { code };

    ghost view = { λ taps. lists_of taps.firsts.items taps.afters.items };

    ghost invariant = { λ taps.
        IsHeld taps.firsts.items taps.heads.items taps.afters.items taps.befores.items };
}

impl Taps {
    /// So many heads, with nothing under them, and so many members.
    pub fn new(alloc: Global, heads: u32, members: u32) -> Result<Taps, AllocError>
        ensures heads { IfOk result (λ taps. taps.by_head ≡ replicate heads []) }
        ensures members { IfOk result (λ taps. taps.members ≡ members) }
    {
        let firsts = vec![in alloc; None; heads as usize]?;
        let heads = vec![in alloc; None; members as usize]?;
        let afters = vec![in alloc; None; members as usize]?;
        let befores = vec![in alloc; None; members as usize]?;
        Ok(Taps {
            firsts,
            heads,
            afters,
            befores,
        })
    }

    /// Puts a member that is under no head first under one.
    pub fn link(&mut self, head: u32, member: u32)
        requires is_head { head < length self.old.by_head }
        requires is_member { member < self.old.members }
        requires is_loose { IsLoose self.old member }
        ensures { self.new ≡ linked self.old head member }
    {
        put_first(
            &mut self.firsts,
            &mut self.heads,
            &mut self.afters,
            &mut self.befores,
            head,
            member,
        );
    }

    /// Takes a member away from its head. The others stay in their order.
    pub fn unlink(&mut self, member: u32)
        requires { (head : ℕ) × IsUnder self.old head member }
        ensures { self.new ≡ unlinked self.old member }
    {
        take_out(
            &mut self.firsts,
            &mut self.heads,
            &mut self.afters,
            &mut self.befores,
            member,
        );
    }

    /// The head of a member, `None` where it is under none.
    pub fn head_of(&self, member: u32) -> Option<u32>
        ensures { IsHeadOf self.now member result }
    {
        value_at(&self.heads, member)
    }

    /// The first member under a head, `None` where there is none. It counts as one read.
    pub fn first<L: Ledger>(&self, head: u32, steps: &mut Steps<L>) -> Option<u32>
        ensures first { result ≡ slice_get (list_of self.now head) 0 }
        ensures counted { steps.new ≡ steps.old + 1 }
    {
        read(&self.firsts, head, steps)
    }

    /// What follows a member in its list, `None` at the end. It counts as one read.
    pub fn next<L: Ledger>(&self, member: u32, steps: &mut Steps<L>) -> Option<u32>
        ensures next { IsNext self.now member result }
        ensures counted { steps.new ≡ steps.old + 1 }
    {
        read(&self.afters, member, steps)
    }

    /// A law of all lists: no member stands twice, each is below the count of members, and so no list is longer than that.
    pub fn stand_once(&self)
        ensures { StandOnce self.now }
    {
        let _firsts = &self.firsts;
    }
}
