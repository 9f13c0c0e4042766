//! What may have lost its way to the roots goes dark.

ghost use Rattle.std.specs.Prelude.{◌≡◌, ◌+◌, ◌*◌, ◌<◌, ◌≤◌, ◌∷◌, [], All, length, false, suc};
ghost use Rattle.std.specs.FinSet.{contains};
ghost use Rattle.number_tables.specs.Numbers.{number_limit};
ghost use Rattle.crosspoint_state.specs.Crosspoints as carried;
ghost use Rattle.plant_config.specs.Plant.{destinations_of};
ghost use Rattle.plant_config.specs.IsPlant.{IsDest};
ghost use Rattle.mixer_effects.specs.Buses.{buses_at};
ghost use Rattle.mixer_effects.specs.Wiring.{IsWiringOf};
ghost use Rattle.tally.specs.Marks.{AreMarksOf};
ghost use Rattle.tally.specs.MarksInside.{StayTurned};
ghost use Rattle.tally.specs.Losing.{KeepLosing, MarksNoMore};
ghost use Rattle.tally.specs.Lost.{AreLost, WaitMore, no_roots};
ghost use Rattle.tally.specs.Touched.{with_switched, touched_by};

use crate::marks::Marks;
use mixer_effects::Graph;
use number_tables::NumberSet;
use plant_config::{Change, DestId, DeviceId};
use std::sync::ledger::Ledger;
use tap_lists::Steps;

// The most buses of a plant.
pub(crate) const BUSES: u32 = 1024;

// Takes the marks away of what changes name, and of the buses that this switches.
pub(crate) fn lose_touched<L: Ledger>(
    graph: &Graph<'_, L>,
    changes: &[Change],
    doubted: &NumberSet,
    marks: &mut Marks,
    waiting: &mut NumberSet,
    steps: &mut Steps<L>,
)
    requires wired { IsWiringOf graph.now.plant graph.now.wiring }
    requires dests { All (λ change. IsDest graph.now.plant change.dest) changes.now }
    requires marks { (points : carried.Crosspoints) × AreMarksOf graph.now.plant points marks.old }
    ensures lost { AreLost graph.now.plant (touched_by graph.now.plant changes.now)
        marks.old marks.new waiting.old waiting.new doubted.now }
    ensures counted { steps.new ≤ steps.old
        + 3 * length (touched_by graph.now.plant changes.now) }
{
    for change in changes {
        lose_switched(graph, change.dest, doubted, marks, waiting, steps);
    }
}

// Takes the marks away of a destination and of the buses that it switches.
fn lose_switched<L: Ledger>(
    graph: &Graph<'_, L>,
    dest: DestId,
    doubted: &NumberSet,
    marks: &mut Marks,
    waiting: &mut NumberSet,
    steps: &mut Steps<L>,
)
    requires dest { IsDest graph.now.plant dest }
    requires wired { IsWiringOf graph.now.plant graph.now.wiring }
    requires marks { (points : carried.Crosspoints) × AreMarksOf graph.now.plant points marks.old }
    ensures lost { AreLost graph.now.plant (with_switched graph.now.plant dest) marks.old marks.new
        waiting.old waiting.new doubted.now }
    ensures counted { steps.new ≤ steps.old + 3 * length (with_switched graph.now.plant dest) }
{
    lose(graph, dest.get(), doubted, marks, waiting, steps);
    for place in 0..BUSES {
        let Some(bus) = graph.switched_by(dest, place, steps) else {
            return;
        };
        lose(graph, bus.get(), doubted, marks, waiting, steps);
    }
}

// Takes the marks away of the buses of a device that are no roots.
pub(crate) fn lose_behind<L: Ledger>(
    graph: &Graph<'_, L>,
    roots: &NumberSet,
    device: DeviceId,
    doubted: &NumberSet,
    marks: &mut Marks,
    waiting: &mut NumberSet,
    steps: &mut Steps<L>,
)
    requires wired { IsWiringOf graph.now.plant graph.now.wiring }
    requires marks { (points : carried.Crosspoints) × AreMarksOf graph.now.plant points marks.old }
    ensures lost { AreLost graph.now.plant (no_roots roots.now (buses_at graph.now.plant device))
        marks.old marks.new waiting.old waiting.new doubted.now }
    ensures counted { steps.new ≤ steps.old + 3 * suc (length (buses_at graph.now.plant device)) }
{
    for place in 0..BUSES {
        let Some(bus) = graph.bus(device, place, steps) else {
            return;
        };
        lose_bus(graph, roots, bus, doubted, marks, waiting, steps);
    }
}

// Takes the mark of a bus away, if it is no root.
fn lose_bus<L: Ledger>(
    graph: &Graph<'_, L>,
    roots: &NumberSet,
    bus: DestId,
    doubted: &NumberSet,
    marks: &mut Marks,
    waiting: &mut NumberSet,
    steps: &mut Steps<L>,
)
    requires bus { IsDest graph.now.plant bus }
    requires wired { IsWiringOf graph.now.plant graph.now.wiring }
    requires marks { (points : carried.Crosspoints) × AreMarksOf graph.now.plant points marks.old }
    ensures lost { AreLost graph.now.plant (no_roots roots.now (bus ∷ [])) marks.old marks.new
        waiting.old waiting.new doubted.now }
    ensures counted { steps.new ≤ steps.old + 2 }
{
    if roots.contains(bus.get()) {
        return;
    }
    lose(graph, bus.get(), doubted, marks, waiting, steps);
}

// Takes the mark of a destination away, if it has one, and puts the device that it fed in doubt.
pub(crate) fn lose<L: Ledger>(
    graph: &Graph<'_, L>,
    dest: u32,
    doubted: &NumberSet,
    marks: &mut Marks,
    waiting: &mut NumberSet,
    steps: &mut Steps<L>,
)
    requires limit { dest < number_limit }
    requires wired { IsWiringOf graph.now.plant graph.now.wiring }
    requires marks { (points : carried.Crosspoints) × AreMarksOf graph.now.plant points marks.old }
    ensures losing { KeepLosing graph.now.plant dest marks.old marks.new waiting.old waiting.new
        doubted.now }
    ensures marks { (points : carried.Crosspoints) → AreMarksOf graph.now.plant points marks.old
        → AreMarksOf graph.now.plant points marks.new }
    ensures dark { contains marks.new.live dest ≡ false }
    ensures fewer { MarksNoMore marks.old marks.new }
    ensures turned { StayTurned marks.old marks.new }
    ensures waits { WaitMore graph.now.plant (dest ∷ []) marks.old waiting.old waiting.new
        doubted.now }
    ensures counted { steps.new ≤ steps.old + 2 }
{
    if !marks.is_live(dest) {
        return;
    }
    let Some(device) = marks.take(graph, dest, steps) else {
        return;
    };
    if !doubted.contains(device.get()) {
        waiting.insert(device.get());
    }
}
