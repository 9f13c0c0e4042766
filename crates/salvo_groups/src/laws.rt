//! What is true of all groups, not only of those that a program makes.

ghost use Rattle.std.specs.Prelude.{◌≡◌, ℕ, ◌<◌, ◌≤◌, Bool, List, [], length};
ghost use Rattle.plant_config.specs.declared.records.Change.{Change};
ghost use Rattle.salvo_groups.specs.Limits as limits;
ghost use Rattle.salvo_groups.specs.Groups.{Group, start_groups, group_of, AreGroups};
ghost use Rattle.salvo_groups.specs.Laws.{ClearsAreOfOneGroup, EntriesPass, GoOnPassing};
ghost use Rattle.salvo_groups.specs.Laws.{StayGroups, StoresAreRead, StoresCollect, first_dests};

use crate::limits::{GROUPS, MAX_ENTRIES};

/// The numbers of the code are those of the profile.
pub fn limits_are_those_of_the_profile()
    ensures groups { GROUPS ≡ limits.salvo_limit }
    ensures entries { MAX_ENTRIES ≡ limits.group_limit }
{}

/// A change that is stored is its destination's one entry, every other destination has the entry that it had, and the
/// destinations stand in the order of before, a new one behind them. A change that is refused changes nothing, and no
/// store changes another group.
pub fn stores_are_read()
    ensures { (groups : List Group) → AreGroups groups → StoresAreRead groups }
{}

/// A clear empties its group and no other.
pub fn clears_are_of_one_group()
    ensures { (groups : List Group) → ClearsAreOfOneGroup groups }
{}

/// No group ever has more than 256 entries, or two of one destination, whatever is stored and cleared.
pub fn groups_stay_groups()
    ensures start { AreGroups start_groups }
    ensures stay { (groups : List Group) → AreGroups groups → StayGroups groups }
{}

/// Groups have only what was stored: they begin with no entries, so that all of them pass every test, and whatever test
/// all entries pass, they go on passing it, if each change that is stored passes it.
pub fn groups_have_only_what_was_stored()
    ensures start { (test : Change → Bool) → EntriesPass test start_groups }
    ensures stay { (test : Change → Bool) (groups : List Group) → EntriesPass test groups →
        GoOnPassing test groups }
{}

/// Stores into an empty group that has room for all their destinations leave one entry for each destination, its last
/// store, in the order in which the destinations were first stored.
pub fn stores_collect()
    ensures { (groups : List Group) (number : ℕ) (changes : List Change) →
        AreGroups groups → number < limits.salvo_limit → group_of groups number ≡ [] →
        length (first_dests changes) ≤ limits.group_limit →
        StoresCollect groups number changes }
{}
