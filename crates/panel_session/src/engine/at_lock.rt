//! A seat of the plant's lock, with a trace, as what answers.

ghost use Rattle.std.specs.Prelude.{◌≡◌, true, refl};
ghost use Rattle.std.proofs.Common.{◌∙◌};
ghost use Rattle.panel_session.specs.Answering.{AnswersAt, EntersAt, RefusesAt, ServesAt};
ghost use Rattle.panel_session.specs.Answering.{TracesPartAt};
ghost use Rattle.panel_session.specs.AnsweringLaws.{answers_at_none, answers_at_more};
ghost use Rattle.panel_session.specs.AnsweringLaws.{seated_at, serves_at};

use crate::engine::answerer::Answerer;
use crate::engine::drain::Drain;
use history_lock::{HistoryLock, OutBox, Seat};
use plant_core::{Answer, PlantState, Request};
use std::sync::Wait;
use trace_lines::LineRoom;

/// A seat of the plant's lock, and the trace that each of its entries has its line in before its answers are sent.
#[derive(Drop)]
pub(crate) struct AtLock<'a, W: Wait, K: Drain> {
    pub(crate) rt: &'a W,
    pub(crate) lock: &'a HistoryLock<PlantState>,
    pub(crate) seat: &'a mut Seat<PlantState>,
    pub(crate) trace: &'a mut K,
}

impl<W: Wait, K: Drain> Answerer for AtLock<'_, W, K> {
    ghost sent_first = { true };

    ghost IsSame = { λ first last. (last.seat.ghost_name ≡ first.seat.ghost_name)
        × (last.trace.ghost_name ≡ first.trace.ghost_name) };

    ghost IsSeat = { λ at seat. at.seat.now.number ≡ seat };

    ghost Serves = { λ plant at. ServesAt plant at.lock.now at.seat.now };

    ghost Answers = { AnswersAt K.written K.faults K.name };

    ghost Enters = { EntersAt K.faults K.name };

    ghost TracesPart = { TracesPartAt K.written K.faults K.name };

    ghost Refuses = { RefusesAt K.faults K.name };

    #[inline(always)]
    fn sent_first(&self) -> bool {
        true
    }

    #[inline]
    fn ask(&mut self, request: &Request, out: &mut OutBox<Answer>) -> Option<u64> {
        match self.lock.call(self.rt, self.seat, request, out) {
            Ok(position) => Some(position),
            Err(_) => None,
        }
    }

    #[inline]
    fn trace(
        &mut self,
        position: u64,
        request: &Request,
        sent: &[u8],
        line: &mut LineRoom,
    ) -> bool {
        if self.trace.take(line.write(position, *request, sent)) {
            true
        } else {
            false
        }
    }

    ghost same_none = { λ at. (refl, refl) };

    ghost same_more = { λ first next last one other. (other.0 ∙ one.0, other.1 ∙ one.1) };

    ghost answers_none = { answers_at_none K.written K.faults K.name };

    ghost answers_more = { answers_at_more K.written K.faults K.name };

    ghost seated_on = { seated_at K.written K.faults K.name };

    ghost serves_on = { serves_at K.written K.faults K.name };

    ghost serves_plant = { λ plant at serves. serves.is_plant };

    ghost refuses_last = { λ first last refuses. refl };
}
