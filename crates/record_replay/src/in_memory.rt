//! A line of a script, worked with its output line in memory.

ghost use Rattle.std.specs.Prelude.{◌≡◌, ℕ, ◌<◌, List, length, IfSome};
ghost use Rattle.record_replay.specs.Script.{Work, lines, worked, LinesSpell};

use crate::digits::Digits;
use crate::no_port::NoPort;
use crate::output::Output;
use crate::replayer::Replayer;
use crate::unwritten::UnwrittenLine;
use line_text::Room;
use plant_core::PlantState;
use plant_names::Names;
use std::mem::swap;

impl Replayer<'_> {
    ghost use Rattle.record_replay.specs.FirstInside.{IsFirst};
    ghost use Rattle.record_replay.specs.ReplayerInside.{MayDo, DoesLine};

    // The state of the plant.
    pub(crate) fn state(&self) -> &PlantState
        ensures { result.now ≡ self.now.state }
    {
        &self.state
    }

    // The plant is in this state from now on, and it was in the one that is handed out.
    pub(crate) fn exchange_state(&mut self, state: &mut PlantState)
        ensures replayer { self.new ≡ record self.old { state = state.old } }
        ensures state { state.new ≡ self.old.state }
    {
        swap(&mut self.state, state);
    }

    // Does the work of the first line of a text, with its output line in memory, and answers what is behind it, `None` if there
    // was no memory for it.
    pub(crate) fn work_in_memory<'s>(
        &mut self,
        text: &'s [u8],
        names: &Names,
        digits: &mut Digits,
        room: &mut Room,
        line: &mut UnwrittenLine,
    ) -> Option<&'s [u8]>
        requires some { 0 < length text.now }
        requires names { names.now ≡ self.old.plant.now }
        requires may { MayDo (length text.now) self.old.plant.now self.old }
        requires spelled { (works : List Work)
            × LinesSpell self.old.plant.now (worked (lines text.now)) works }
        ensures { IfSome result (λ behind. (first : List ℕ) × IsFirst text.now first behind.now
            × DoesLine self.old.plant.now first self.old self.new
            (λ its packets. line.new.text ≡ its)) }
    {
        room.clear();
        line.clear();
        let mut output = Output::new(room, line);
        let behind = self.work_first(text, names, digits, &mut output, &mut NoPort)?;
        if output.finish() { Some(behind) } else { None }
    }
}
