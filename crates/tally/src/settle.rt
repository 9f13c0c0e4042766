//! Marks are settled again after some destinations moved.

ghost use Rattle.std.specs.Prelude.{◌≡◌, ◌+◌, ◌*◌, ◌<◌, ◌≤◌, All, ℕ, List};
ghost use Rattle.std.specs.FinSet.{empty, contains};
ghost use Rattle.plant_config.specs.IsPlant.{IsDest};
ghost use Rattle.crosspoint_state.specs.Crosspoints as carried;
ghost use Rattle.crosspoint_state.specs.Taps.{AreTapsOf};
ghost use Rattle.mixer_effects.specs.Wiring.{IsWiringOf};
ghost use Rattle.tally.specs.MarksInside.{StayTurned};
ghost use Rattle.tally.specs.MarkLaws.{AreSettled};
ghost use Rattle.tally.specs.Update.{IsMove};
ghost use Rattle.tally.specs.Reads.{read_bound};

use crate::doubt::spread_doubt;
use crate::losing::lose_touched;
use crate::marks::Marks;
use crate::relight::{relight_touched, relight_waiting};
use mixer_effects::Graph;
use number_tables::NumberSet;
use plant_config::Change;
use std::sync::ledger::Ledger;
use tap_lists::Steps;

// Settles marks after changes. What changes name and what this switches goes dark, and with it all whose way to the roots may
// have led through it. Then what is live is marked again, from what stayed live and from the changes outwards.
pub(crate) fn settle<L: Ledger>(
    graph: &Graph<'_, L>,
    roots: &NumberSet,
    changes: &[Change],
    marks: &mut Marks,
    waiting: &mut NumberSet,
    doubted: &mut NumberSet,
    steps: &mut Steps<L>,
)
    requires wired { IsWiringOf graph.now.plant graph.now.wiring }
    requires tapped { AreTapsOf graph.now.plant graph.now.crosspoints graph.now.taps }
    requires dests { All (λ change. IsDest graph.now.plant change.dest) changes.now }
    requires moved { (old : carried.Crosspoints) × ((list : List ℕ) × IsMove graph.now.plant old
        graph.now.crosspoints list roots.now changes.now marks.old) }
    requires idle { waiting.old ≡ empty }
    requires sure { doubted.old ≡ empty }
    ensures settled { (old : carried.Crosspoints) (list : List ℕ)
        → IsMove graph.now.plant old graph.now.crosspoints list roots.now changes.now marks.old
        → AreSettled graph.now.plant graph.now.crosspoints list marks.new }
    ensures turned { StayTurned marks.old marks.new }
    ensures counted { (old : carried.Crosspoints) (list : List ℕ)
        → IsMove graph.now.plant old graph.now.crosspoints list roots.now changes.now marks.old
        → steps.new ≤ steps.old
        + read_bound graph.now.plant old graph.now.crosspoints list }
    ensures idle { waiting.new ≡ empty }
    ensures sure { doubted.new ≡ empty }
{
    lose_touched(graph, changes, doubted, marks, waiting, steps);
    spread_doubt(graph, roots, marks, waiting, doubted, steps);
    relight_touched(graph, roots, changes, marks, doubted, steps);
    relight_waiting(graph, roots, marks, doubted, steps);
}
