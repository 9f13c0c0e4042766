//! The changes of a group that change something.

ghost use Rattle.std.specs.Prelude.{◌≡◌, ◌++◌, ◌+◌, ◌<◌, ◌≤◌, [], ◌∷◌, length, vec_capacity, IfOk};
ghost use Rattle.salvo_groups.specs.Limits.{group_limit};
ghost use Rattle.plant_core.specs.StateInside.{busy_of};

use crosspoint_state::Crosspoints;
use plant_config::{Change, SourceId};
use salvo_groups::MAX_ENTRIES;
use std::alloc::{AllocError, Global};
use std::marker::Model;

/// The changes of a group that change something, with room for a whole group.
#[derive(Debug, Drop)]
pub(crate) struct Moved {
    changes: Vec<Change>,
}

impl Model for Moved {
    ghost use Rattle.std.specs.Prelude.{◌≤◌, vec_capacity};
    ghost use Rattle.std.specs.Coded.{coded_list};
    ghost use Rattle.salvo_groups.specs.Limits.{group_limit};
    ghost use Rattle.salvo_groups.specs.Groups.{Group, change_code};

    ghost Value = { Group };

    ghost coded = { coded_list change_code };

    ghost view = { λ moved. moved.changes.items };

    ghost invariant = { λ moved. group_limit ≤ vec_capacity moved.changes };
}

impl Moved {
    /// No changes.
    pub(crate) fn new(alloc: Global) -> Result<Moved, AllocError>
        ensures { IfOk result (λ moved. moved ≡ []) }
    {
        let changes = Vec::with_capacity(alloc, MAX_ENTRIES)?;
        Ok(Moved { changes })
    }

    /// In place of what stood here, those of a group's entries that will change something.
    pub(crate) fn take(&mut self, points: &Crosspoints, entries: &[Change])
        requires { length entries.now ≤ group_limit }
        ensures { self.new ≡ busy_of points.now.entries entries.now }
    {
        self.changes.clear();
        push_all(&mut self.changes, points, entries);
    }

    /// The changes.
    pub(crate) fn as_slice(&self) -> &[Change]
        ensures { result.now ≡ self.now }
    {
        &self.changes
    }
}

// Puts those of these changes that will change something behind what stands in a list.
fn push_all(list: &mut Vec<Change>, points: &Crosspoints, changes: &[Change])
    requires { length list.old.items + length changes.now ≤ vec_capacity list.old }
    ensures items { list.new.items ≡ list.old.items ++ busy_of points.now.entries changes.now }
    ensures capacity { vec_capacity list.new ≡ vec_capacity list.old }
{
    for change in changes {
        push_busy(list, points, change);
    }
}

// Puts a change behind what stands in a list, unless it is idle.
fn push_busy(list: &mut Vec<Change>, points: &Crosspoints, change: &Change)
    requires { length list.old.items < vec_capacity list.old }
    ensures items { list.new.items
        ≡ list.old.items ++ busy_of points.now.entries (change.now ∷ []) }
    ensures most { length list.new.items ≤ length list.old.items + 1 }
    ensures capacity { vec_capacity list.new ≡ vec_capacity list.old }
{
    if points.is_idle(change) {
        return;
    }
    // kit: without the `Option` that is in a change named, a push of it gets no proof.
    let source: Option<SourceId> = change.source;
    let dest = change.dest;
    list.push_reserved(Change { dest, source });
}
