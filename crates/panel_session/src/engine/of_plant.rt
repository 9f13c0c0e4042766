//! The plant itself as what answers.

ghost use Rattle.std.specs.Prelude.{false};
ghost use Rattle.panel_session.specs.Answering.{AnswersOf, AnySeat, EntersOf, ServesOf};
ghost use Rattle.panel_session.specs.AnsweringLaws.{answers_of_none, answers_of_more};
ghost use Rattle.panel_session.specs.AnsweringLaws.{serves_of_more, serves_of_plant};

use crate::engine::answerer::Answerer;
use history_lock::OutBox;
use plant_core::{Answer, PlantState, Request};
use trace_lines::LineRoom;

impl Answerer for PlantState {
    ghost sent_first = { false };

    ghost IsSame = { λ first last. Unit {0} };

    ghost IsSeat = { AnySeat };

    ghost Serves = { ServesOf };

    ghost Answers = { AnswersOf };

    ghost Enters = { λ first position entry last. EntersOf first entry last };

    ghost TracesPart = { λ first entry last. ⊥ };

    ghost Refuses = { λ first last. ⊥ };

    #[inline(always)]
    fn sent_first(&self) -> bool {
        false
    }

    #[inline(always)]
    fn ask(&mut self, request: &Request, out: &mut OutBox<Answer>) -> Option<u64> {
        self.step(request, out);
        Some(0)
    }

    #[inline(always)]
    fn trace(&mut self, _: u64, _: &Request, _: &[u8], _: &mut LineRoom) -> bool {
        true
    }

    ghost same_none = { λ state. tt };

    ghost same_more = { λ first next last one other. tt };

    ghost answers_none = { answers_of_none };

    ghost answers_more = { answers_of_more };

    ghost seated_on = { λ first last entries seat answers is. tt };

    ghost serves_on = { serves_of_more };

    ghost serves_plant = { serves_of_plant };

    ghost refuses_last = { λ first last refuses. absurd refuses };
}
