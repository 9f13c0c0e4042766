//! The plant of a standby.

ghost use Rattle.std.specs.Prelude.{◌≡◌, ◌≤◌, IfOk};
ghost use Rattle.plant_core.specs.Answer.{room_of};
ghost use Rattle.plant_core.specs.State as states;
ghost use Rattle.plant_core.specs.Step as steps;

use history_lock::OutBox;
use plant_config::Plant;
use plant_core::{Answer, PlantState, Request};
use std::alloc::{AllocError, Global};

/// A plant that is stepped by requests which another one answers, and the room for what it would answer.
#[derive(Drop)]
pub(crate) struct Replica {
    pub(crate) state: PlantState,
    answers: OutBox<Answer>,
    ghost room: { room_of state.plant ≤ answers.places },
}

impl Replica {
    /// The plant at its start.
    pub(crate) fn start(alloc: Global, plant: &Plant) -> Result<Replica, AllocError>
        ensures { IfOk result (λ replica. replica.state ≡ states.start plant.now) }
    {
        let answers = OutBox::new(alloc, PlantState::room_of(plant))?;
        Ok(Replica {
            state: PlantState::start(alloc, plant)?,
            answers,
        })
    }

    /// Steps a request. It takes no memory.
    pub(crate) fn step(&mut self, request: &Request)
        requires { states.Fits self.old.state request.now }
        ensures state { self.new.state ≡ (steps.step self.old.state request.now).state }
        ensures plant { self.new.state.plant ≡ self.old.state.plant }
    {
        self.answers.clear();
        self.state.step(request, &mut self.answers);
    }
}
