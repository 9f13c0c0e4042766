//! The entries of one group.

ghost use Rattle.std.specs.Prelude.{◌≡◌, ◌↔◌, [], length, IsTrue, IfOk};
ghost use Rattle.salvo_groups.specs.Limits.{group_limit};
ghost use Rattle.salvo_groups.specs.Groups.{IsGroup};
ghost use Rattle.salvo_groups.specs.Answers.{store_answer};
ghost use Rattle.salvo_groups.specs.EntriesInside.{asked, place_of};

use crate::limits::MAX_ENTRIES;
use crate::store::Store;
use plant_config::{Change, DestId};
use std::alloc::{AllocError, Global};
use std::marker::Model;

/// The entries of one group, with room for as many as it may have.
#[derive(Debug, Drop)]
pub(crate) struct Entries {
    entries: Vec<Change>,
}

impl Model for Entries {
    ghost use Rattle.std.specs.Prelude.{vec_capacity};
    ghost use Rattle.std.specs.Coded.{coded_list};
    ghost use Rattle.salvo_groups.specs.Groups.{Group, change_code};
    ghost use Rattle.salvo_groups.specs.EntriesInside.{AreEntries};

    ghost Value = { Group };

    ghost coded = { coded_list change_code };

    ghost view = { λ group. group.entries.items };

    ghost invariant = { λ group. AreEntries group.entries.items (vec_capacity group.entries) };
}

impl Entries {
    /// No entries.
    pub(crate) fn new(alloc: Global) -> Result<Entries, AllocError>
        ensures { IfOk result (λ group. group ≡ []) }
    {
        let entries = Vec::with_capacity(alloc, MAX_ENTRIES)?;
        Ok(Entries { entries })
    }

    /// The entries in the order in which their destinations were first stored.
    pub(crate) fn as_slice(&self) -> &[Change]
        ensures entries { result.now ≡ self.now }
        ensures group { IsGroup result.now }
    {
        &self.entries
    }

    /// Stores a change: in the place of its destination's entry, or behind the others where there may be one more.
    pub(crate) fn store(&mut self, change: Change) -> Store
        ensures answer { result ≡ store_answer self.old change }
        ensures group { self.new ≡ asked self.old change }
    {
        if let Some(place) = place_of(&self.entries, change.dest) {
            return self.change_at(place, change);
        }
        if self.is_full() {
            return Store::GroupFull;
        }
        // kit: a function of the push alone gets no proof, as nothing in it names the `Option` that is in a change.
        self.entries.push_reserved(change);
        Store::Stored
    }

    // Changes the entry at this place, which is of the change's destination.
    fn change_at(&mut self, place: usize, change: Change) -> Store
        requires { place_of self.old change.dest ≡ Some place }
        ensures answer { result ≡ store_answer self.old change }
        ensures group { self.new ≡ asked self.old change }
    {
        self.entries[place] = change;
        Store::Stored
    }

    // Whether there are as many entries as there may be.
    fn is_full(&self) -> bool
        ensures { IsTrue result ↔ (length self.now ≡ group_limit) }
    {
        self.entries.len() == MAX_ENTRIES
    }

    /// Takes all entries away, and keeps their room.
    pub(crate) fn clear(&mut self)
        ensures { self.new ≡ [] }
    {
        self.entries.clear();
    }
}

// The place of a destination's entry.
fn place_of(entries: &[Change], dest: DestId) -> Option<usize>
    ensures { result ≡ place_of entries.now dest }
{
    entries.iter().position(|entry| entry.dest == dest)
}
