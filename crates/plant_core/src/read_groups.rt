//! The salvo groups of a state are read from its text.

ghost use Rattle.std.specs.Prelude.{◌≡◌, ◌<◌, [], length, None, IfOk};
ghost use Rattle.plant_config.specs.IsPlant.{IsPlant};
ghost use Rattle.salvo_groups.specs.Groups.{group_of, AreGroups};
ghost use Rattle.salvo_groups.specs.Laws.{SameGroupsBut};
ghost use Rattle.plant_core.specs.StateText.{state_size};
ghost use Rattle.plant_core.specs.StateFault.{first_fault, count_in};
ghost use Rattle.plant_core.specs.ReadInside.{AreGroupsIn};
ghost use Rattle.plant_core.specs.ReadParts.{changes_in};

use crate::group_fields::{change_in, count_in};
use plant_config::Plant;
use salvo_groups::{GROUPS, Groups};
use std::alloc::{AllocError, Global};

/// All groups, from a text without a fault.
pub(crate) fn read_groups(alloc: Global, plant: &Plant, bytes: &[u8]) -> Result<Groups, AllocError>
    requires plant { IsPlant plant.now }
    requires size { length bytes.now ≡ state_size plant.now }
    requires whole { first_fault plant.now bytes.now ≡ None }
    ensures { IfOk result (AreGroupsIn plant.now bytes.now) }
{
    let mut groups = Groups::new(alloc)?;
    for group in 0..GROUPS {
        read_group(plant, bytes, group, &mut groups);
    }
    Ok(groups)
}

// A group that is empty yet.
fn read_group(plant: &Plant, bytes: &[u8], group: u8, groups: &mut Groups)
    requires size { length bytes.now ≡ state_size plant.now }
    requires whole { first_fault plant.now bytes.now ≡ None }
    requires group { group < GROUPS }
    requires empty { group_of groups.old group ≡ [] }
    requires groups { AreGroups groups.old }
    ensures changes { group_of groups.new group
        ≡ changes_in plant.now bytes.now group (count_in plant.now bytes.now group) }
    ensures others { SameGroupsBut groups.old groups.new group }
    ensures groups { AreGroups groups.new }
{
    for index in 0..usize::from(count_in(plant, bytes, group)) {
        groups.store(group, change_in(plant, bytes, group, index));
    }
}
