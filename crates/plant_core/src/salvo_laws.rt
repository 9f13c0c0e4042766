//! What is true of salvo groups in every valid state: a group is taken whole, or no crosspoint changes.

ghost use Rattle.plant_core.specs.SalvoLaws.{GoesAreWhole, EmptyGroupsStay, GroupsAreCleared};
ghost use Rattle.plant_core.specs.SalvoLaws.{KeptGroupsAreRefused, TielessGroupsAreRefused};
ghost use Rattle.plant_core.specs.SalvoLaws.{FreeGroupsAreTaken};
ghost use Rattle.plant_core.specs.SalvoLaws.{EntriesAreStored, OtherEntriesAreNot};
ghost use Rattle.plant_core.specs.SalvoLaws.{EntriesAreTold, OthersAreNoEntries};

/// After a go each destination of the group carries the group's source for it and no other destination changed, or no
/// crosspoint changed at all.
pub fn goes_are_whole()
    ensures { GoesAreWhole }
{}

/// A group that has no entries stays as it is, and one that is to be cleared is cleared. Any other is refused where another
/// device protects one of its destinations, and then where the ties aren't enough for all of it at once: nothing changes,
/// and the answer says why. One that isn't refused is taken, and is empty then.
pub fn goes_are_answered()
    ensures empty { EmptyGroupsStay }
    ensures cleared { GroupsAreCleared }
    ensures kept { KeptGroupsAreRefused }
    ensures tieless { TielessGroupsAreRefused }
    ensures taken { FreeGroupsAreTaken }
{}

/// An entry is stored exactly where it is in range and its group has its destination, or fewer than 256 entries. It is told
/// as it was asked to be stored.
pub fn entries_are_kept()
    ensures stored { EntriesAreStored }
    ensures others { OtherEntriesAreNot }
    ensures told { EntriesAreTold }
    ensures none { OthersAreNoEntries }
{}
