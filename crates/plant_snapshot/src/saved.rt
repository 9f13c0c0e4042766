//! The state that an entry stands for.

ghost use Rattle.std.specs.Prelude.{◌≡◌, IfOk, length};
ghost use Rattle.state_store.specs.Reading.{kept_by};
ghost use Rattle.plant_snapshot.specs.StandsFor.{entry_size, IsStateKept};
ghost use Rattle.plant_snapshot.specs.Damage.{slot_number};
ghost use Rattle.plant_snapshot.specs.SavedInside.{SaysDamage};

use plant_config::Plant;
use plant_core::{PlantState, StateFault};
use state_store::Slot;
use std::alloc::Global;

/// Why an entry isn't read.
#[derive(Clone, Copy, Debug)]
pub(crate) enum Unread {
    NoMemory,
    /// The slot of this number has no text of a state: its first field that breaks a rule stands at this place of it.
    Damaged { slot: u8, place: u64 },
}

// The state that a store stands for in which this slot stands and has this entry.
pub(crate) fn read_saved(
    alloc: Global,
    plant: &Plant,
    slot: Option<Slot>,
    entry: &[u8],
) -> Result<PlantState, Unread>
    requires { length entry.now ≡ entry_size plant.now }
    ensures state { IfOk result (λ state. IsStateKept plant.now state (kept_by slot entry.now)) }
    ensures plant { IfOk result (λ state. state.plant ≡ plant.now) }
    ensures damaged { SaysDamage plant.now slot entry.now result }
{
    let Some(slot) = slot else {
        return match PlantState::start(alloc, plant) {
            Ok(state) => Ok(state),
            Err(_) => Err(Unread::NoMemory),
        };
    };
    match PlantState::read_state(alloc, plant, &entry[8..]) {
        Ok(state) => {
            state.is_kept();
            Ok(state)
        }
        Err(StateFault::NoMemory) => Err(Unread::NoMemory),
        Err(StateFault::Damaged(place)) => Err(Unread::Damaged {
            slot: slot_number(slot),
            place: place as u64,
        }),
    }
}

// A slot's number: 0 for the first, 1 for the second.
fn slot_number(slot: Slot) -> u8
    ensures { result ≡ slot_number slot }
{
    match slot {
        Slot::First => 0,
        Slot::Second => 1,
    }
}
