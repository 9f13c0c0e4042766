//! Doubt spreads: what went dark may have been the way to the roots of the devices that it fed.

ghost use Rattle.std.specs.Prelude.{◌≡◌, ◌+◌, ◌*◌, ◌≤◌};
ghost use Rattle.std.specs.FinSet.{empty, contains};
ghost use Rattle.crosspoint_state.specs.Crosspoints as carried;
ghost use Rattle.mixer_effects.specs.Wiring.{IsWiringOf};
ghost use Rattle.tally.specs.Marks.{AreMarksOf};
ghost use Rattle.tally.specs.Lost.{AreDevices, HasSpread};
ghost use Rattle.tally.specs.Weight.{weigh, device_weight};

use crate::losing::lose_behind;
use crate::marks::Marks;
use mixer_effects::Graph;
use number_tables::NumberSet;
use plant_config::DeviceId;
use std::sync::ledger::Ledger;
use tap_lists::Steps;

// Goes through the devices that wait: the buses of each go dark, but for the roots, and the devices that these fed wait too.
// At the end none waits, and each that did is in doubt.
pub(crate) fn spread_doubt<L: Ledger>(
    graph: &Graph<'_, L>,
    roots: &NumberSet,
    marks: &mut Marks,
    waiting: &mut NumberSet,
    doubted: &mut NumberSet,
    steps: &mut Steps<L>,
)
    requires wired { IsWiringOf graph.now.plant graph.now.wiring }
    requires marks { (points : carried.Crosspoints) × AreMarksOf graph.now.plant points marks.old }
    requires devices { AreDevices graph.now.plant waiting.old }
    requires none { doubted.old ≡ empty }
    ensures spread { HasSpread graph.now.plant roots.now marks.old marks.new waiting.old waiting.new
        doubted.new }
    ensures all { waiting.new ≡ empty }
    ensures counted { steps.new ≤ steps.old
        + 3 * weigh (device_weight graph.now.plant) (contains doubted.new) }
{
    while let Some(device) = waiting.lowest() {
        waiting.remove(device);
        doubted.insert(device);
        let device = DeviceId::of(device);
        lose_behind(graph, roots, device, doubted, marks, waiting, steps);
    }
}
