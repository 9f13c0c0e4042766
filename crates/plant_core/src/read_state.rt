//! A state is read from its text.

ghost use Rattle.std.specs.Prelude.{◌≡◌, ◌↔◌, ℕ, length, None, Some, Err, IfOk};
ghost use Rattle.plant_core.specs.declared.read_state.StateFault.TheVariants.{NoMemory, Damaged};
ghost use Rattle.plant_core.specs.StateText.{state_text, state_size};
ghost use Rattle.plant_core.specs.StateFault.{first_fault};

use crate::read_dests::{read_owners, read_points};
use crate::read_groups::read_groups;
use crate::read_notices::read_notices;
use crate::read_shown::read_shown;
use crate::state::PlantState;
use crate::state_fault::first_fault;
use crate::tables::Indexes;
use plant_config::Plant;
use std::alloc::{AllocError, Global};

/// Why no state was read from a text.
#[derive(Clone, Copy, Debug, PartialEq, Eq)]
pub enum StateFault {
    /// There was no memory.
    NoMemory,
    /// The text is none of a state: the place of the first field that breaks a rule.
    Damaged(usize),
}

impl From<AllocError> for StateFault {
    ghost from_gives = { λ _ fault. fault ≡ NoMemory };

    fn from(_: AllocError) -> Self {
        StateFault::NoMemory
    }
}

impl PlantState {
    /// The state of a plant that a text spells. Of a text in which a field breaks a rule it tells the first such field,
    /// whatever memory there is.
    pub fn read_state(alloc: Global, plant: &Plant, bytes: &[u8]) -> Result<PlantState, StateFault>
        requires { length bytes.now ≡ state_size plant.now }
        ensures text { IfOk result (λ state. state_text state ≡ bytes.now) }
        ensures plant { IfOk result (λ state. state.plant ≡ plant.now) }
        ensures whole { IfOk result (λ _. first_fault plant.now bytes.now ≡ None) }
        ensures damaged { (place : ℕ) → (result ≡ Err (Damaged place))
            ↔ (first_fault plant.now bytes.now ≡ Some place) }
    {
        if let Some(place) = first_fault(alloc, plant, bytes) {
            return Err(StateFault::Damaged(place));
        }
        let state = PlantState::of_text(alloc, plant, bytes)?;
        Ok(state)
    }

    // The state of a text without a fault.
    fn of_text(alloc: Global, plant: &Plant, bytes: &[u8]) -> Result<PlantState, AllocError>
        requires size { length bytes.now ≡ state_size plant.now }
        requires whole { first_fault plant.now bytes.now ≡ None }
        ensures text { IfOk result (λ state. state_text state ≡ bytes.now) }
        ensures plant { IfOk result (λ state. state.plant ≡ plant.now) }
    {
        let destinations = plant.destination_count();
        // What has most in it is made last: each part is let go where a later one has no memory.
        let shown = read_shown(alloc, plant, bytes)?;
        let notices = read_notices(alloc, plant, bytes)?;
        let groups = read_groups(alloc, plant, bytes)?;
        let protects = read_owners(alloc, destinations, bytes)?;
        let crosspoints = read_points(alloc, plant, bytes)?;
        let indexes = Indexes::of(alloc, plant, &crosspoints)?;
        let plant = plant.copy(alloc)?;
        Ok(PlantState {
            plant,
            crosspoints,
            protects,
            groups,
            notices,
            shown,
            tables: indexes.tables,
            due: indexes.due,
        })
    }
}
