//! The frame at the other end of the line: the bench plant.

ghost use Rattle.std.specs.Prelude.{◌≡◌, [], ◌∷◌, None, Some, IfOk};
ghost use Rattle.std.specs.Option.{option_to_list};
ghost use Rattle.crosspoint_state.specs.Crosspoints.{source_of};
ghost use Rattle.swp08_messages.specs.declared.message.Message.{Message};
ghost use Rattle.plant_core.specs.declared.answer.Answer.TheVariants.{Say};
ghost use Rattle.matrix_driver.specs.World.{Carried, made_by, told_by};
ghost use Rattle.command_drive.specs.DriveInside.{IsConnect, IsFrame, HasSources};

use history_lock::OutBox;
use plant_config::{DestId, PanelNo, Plant};
use plant_core::{Answer, PlantState, Request};
use std::alloc::{AllocError, Global};
use swp08_messages::Message;

/// A frame that is the bench plant, to which panel 0 speaks.
#[derive(Drop)]
pub(crate) struct BenchFrame {
    answers: OutBox<Answer>,
    state: PlantState,
}

impl BenchFrame {
    // All its destinations are parked.
    pub(crate) fn new(alloc: Global) -> Result<BenchFrame, AllocError>
        ensures frame { IfOk result IsFrame }
        ensures parked { IfOk result (λ frame. HasSources frame (λ dest. None)) }
    {
        let plant = Plant::bench(alloc)?;
        let answers = OutBox::new(alloc, PlantState::room_of(&plant))?;
        let state = PlantState::start(alloc, &plant)?;
        Ok(BenchFrame { answers, state })
    }

    // Makes the connect that a message asks for, and answers what it tells then.
    pub(crate) fn take(&mut self, message: &Message) -> Option<Message>
        requires asks { IsConnect message.now }
        requires frame { IsFrame self.old }
        ensures told { option_to_list result ≡ told_by message.now }
        ensures made { (carried : Carried) → HasSources self.old carried
            → HasSources self.new (made_by carried message.now) }
        ensures frame { IsFrame self.new }
    {
        self.answers.clear();
        let request = Request::Told {
            panel: PanelNo::of(0),
            item: 0,
            message: *message,
        };
        self.state.step(&request, &mut self.answers);
        told_in(self.answers.items())
    }

    // The source of a destination, by its number.
    pub(crate) fn source_at(&self, dest: u16) -> Option<u32>
        ensures { result ≡ source_of self.now.state.crosspoints dest }
    {
        let source = self.state.source_at(DestId::of(u32::from(dest)))?;
        Some(source.get())
    }
}

// What is told, where it is one message.
fn told_in(answers: &[Answer]) -> Option<Message>
    ensures { (message : Message) → answers.now ≡ Say message ∷ []
        → result ≡ Some message }
{
    match answers {
        [Answer::Say(told)] => Some(*told),
        _ => None,
    }
}
