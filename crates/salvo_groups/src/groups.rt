//! All salvo groups.

ghost use Rattle.std.specs.Prelude.{◌≡◌, ◌<◌, ◌≤◌, ◌↔◌, length, slice_get, IsNone, IfOk};
ghost use Rattle.salvo_groups.specs.Groups.{start_groups, group_of, with_store, with_clear};
ghost use Rattle.salvo_groups.specs.Groups.{IsGroup, AreGroups};
ghost use Rattle.salvo_groups.specs.Answers.{store_answer, HasNoRoom};

use crate::entries::Entries;
use crate::limits::GROUPS;
use crate::store::Store;
use plant_config::Change;
use std::alloc::{AllocError, Global};
use std::marker::Model;

/// All salvo groups of a plant, common to its panels. A contract sees the list of their entries, a list a group.
#[derive(Debug, Drop)]
pub struct Groups {
    groups: Vec<Entries>,
}

impl Model for Groups {
    ghost use Rattle.std.specs.Prelude.{List};
    ghost use Rattle.salvo_groups.specs.Groups.{Group, code, AreGroups};

    ghost Value = { List Group };

    ghost coded = { code };

    ghost view = { λ groups. groups.groups.items };

    ghost invariant = { λ groups. AreGroups groups.groups.items };
}

impl Groups {
    /// All groups, each empty and with room for all entries that it may have.
    pub fn new(alloc: Global) -> Result<Groups, AllocError>
        ensures { IfOk result (λ groups. groups ≡ start_groups) }
    {
        let mut groups = Vec::with_capacity(alloc, usize::from(GROUPS))?;
        for _group in 0..GROUPS {
            groups.push(Entries::new(alloc)?)?;
        }
        Ok(Groups { groups })
    }

    /// Stores a change in a group. The entry of a destination that the group has is changed in its place, that of a new
    /// one is put behind the others. Where a new one has no room, nothing changes.
    pub fn store(&mut self, group: u8, change: Change) -> Store
        requires { group < GROUPS }
        ensures groups { self.new ≡ with_store self.old group change }
        ensures answer { result ≡ store_answer (group_of self.old group) change }
        ensures full { (result ≡ Store.GroupFull)
            ↔ HasNoRoom (group_of self.old group) change.dest }
        ensures unchanged { result ≡ Store.GroupFull → self.new ≡ self.old }
    {
        let entries = &mut self.groups[usize::from(group)];
        entries.store(change)
    }

    /// Takes all entries of a group away.
    pub fn clear(&mut self, group: u8)
        requires { group < GROUPS }
        ensures { self.new ≡ with_clear self.old group }
    {
        let entries = &mut self.groups[usize::from(group)];
        entries.clear();
    }

    /// How many entries a group has, at most 256.
    pub fn count(&self, group: u8) -> u32
        requires { group < GROUPS }
        ensures { result ≡ length (group_of self.now group) }
    {
        self.entries(group).len() as u32
    }

    /// An entry of a group by its index, `None` where the index isn't below the count.
    pub fn entry(&self, group: u8, index: u32) -> Option<Change>
        requires { group < GROUPS }
        ensures entry { result ≡ slice_get (group_of self.now group) index }
        ensures none { IsNone result ↔ length (group_of self.now group) ≤ index }
    {
        self.entries(group).get(index as usize).copied()
    }

    /// The entries of a group, in the order in which their destinations were first stored.
    pub fn entries(&self, group: u8) -> &[Change]
        requires { group < GROUPS }
        ensures entries { result.now ≡ group_of self.now group }
        ensures group { IsGroup result.now }
        ensures groups { AreGroups self.now }
    {
        self.groups[usize::from(group)].as_slice()
    }
}
