//! The plant as a machine that can be shared.

ghost use Rattle.plant_core.specs.State as states;
ghost use Rattle.plant_core.specs.Step as steps;
ghost use Rattle.plant_core.specs.Answer.{room_of};

use crate::answer::Answer;
use crate::request::Request;
use crate::state::PlantState;
use history_lock::{Machine, OutBox};
use swp08_messages::MessageKind;

impl Machine for PlantState {
    type Request = Request;

    type Answer = Answer;

    ghost step = { steps.step };

    ghost Fits = { states.Fits };

    ghost room = { λ state. room_of state.plant };

    fn room(&self) -> usize {
        PlantState::room_of(self.plant())
    }

    fn fits(&self, request: &Request) -> bool {
        let panels = self.panel_count();
        match request {
            Request::Told { panel, message, .. } => {
                panel.get() < panels && message.kind() == MessageKind::Plant && message.in_range()
            }
            Request::Poll { panel, .. } | Request::Leave { panel } => panel.get() < panels,
            Request::DisplayPoll { screen, .. } => self.has_screen(*screen),
        }
    }

    #[inline(always)]
    fn step(&mut self, request: &Request, out: &mut OutBox<Answer>) {
        self.step(request, out);
    }
}
