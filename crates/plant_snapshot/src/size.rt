//! How large a plant's store is.

ghost use Rattle.std.specs.Prelude.{◌≡◌, ◌≤◌};
ghost use Rattle.plant_snapshot.specs.StandsFor.{entry_size, store_size};
ghost use Rattle.plant_snapshot.specs.SizeInside.{most_entry};

use plant_config::Plant;
use plant_core::state_size;

// How many bytes the number of an entry has.
const NUMBER: usize = 8;

/// How many bytes the store of a plant has: at most 10,281,650.
pub fn store_size(plant: &Plant) -> u64
    ensures { result ≡ store_size plant.now }
{
    2 * (1 + entry_size(plant) as u64)
}

// How many bytes an entry of it has: a number of eight bytes, and the text of a state.
#[tactic(auto, using(crate::proofs::SizeLemmas::entries_are_small))]
pub(crate) fn entry_size(plant: &Plant) -> usize
    ensures size { result ≡ entry_size plant.now }
    ensures most { entry_size plant.now ≤ most_entry }
{
    // kit: that the plant is one is known by a call of a method.
    let _panels = plant.panels();
    NUMBER + state_size(plant)
}
