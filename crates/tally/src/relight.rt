//! What is live is marked again, from the roots outwards.

ghost use Rattle.std.specs.Prelude.{◌≡◌, ◌+◌, ◌*◌, ◌<◌, ◌≤◌, ◌∷◌, [], All, length, suc};
ghost use Rattle.std.specs.FinSet.{empty, contains};
ghost use Rattle.number_tables.specs.Numbers.{number_limit};
ghost use Rattle.plant_config.specs.Plant.{destinations_of};
ghost use Rattle.plant_config.specs.IsPlant.{IsDest};
ghost use Rattle.crosspoint_state.specs.Taps.{AreTapsOf};
ghost use Rattle.mixer_effects.specs.Buses.{buses_at};
ghost use Rattle.mixer_effects.specs.Wiring.{IsWiringOf};
ghost use Rattle.tally.specs.Marks.{AreMarksOf};
ghost use Rattle.tally.specs.MarksInside.{StayTurned};
ghost use Rattle.tally.specs.Touched.{with_switched, touched_by};
ghost use Rattle.tally.specs.Lost.{AreDevices};
ghost use Rattle.tally.specs.Relit.{is_reached, MarksOne, AreFedMore, WaitOnceFed, AreRelit};
ghost use Rattle.tally.specs.Weight.{weigh, device_weight};

use crate::losing::BUSES;
use crate::marks::Marks;
use mixer_effects::Graph;
use number_tables::NumberSet;
use plant_config::{Change, DestId, DeviceId};
use std::sync::ledger::Ledger;
use tap_lists::Steps;

// Looks again at what changes name, and at the buses that this switches.
pub(crate) fn relight_touched<L: Ledger>(
    graph: &Graph<'_, L>,
    roots: &NumberSet,
    changes: &[Change],
    marks: &mut Marks,
    waiting: &mut NumberSet,
    steps: &mut Steps<L>,
)
    requires wired { IsWiringOf graph.now.plant graph.now.wiring }
    requires tapped { AreTapsOf graph.now.plant graph.now.crosspoints graph.now.taps }
    requires dests { All (λ change. IsDest graph.now.plant change.dest) changes.now }
    requires marks { AreMarksOf graph.now.plant graph.now.crosspoints marks.old }
    ensures relit { AreRelit graph.now.plant graph.now.crosspoints roots.now
        (touched_by graph.now.plant changes.now) marks.old marks.new waiting.old waiting.new }
    ensures counted { steps.new ≤ steps.old
        + 6 * length (touched_by graph.now.plant changes.now) }
{
    for change in changes {
        relight_switched(graph, roots, change.dest, marks, waiting, steps);
    }
}

// Goes through the devices that wait: looks again at the buses of each. At the end none waits.
pub(crate) fn relight_waiting<L: Ledger>(
    graph: &Graph<'_, L>,
    roots: &NumberSet,
    marks: &mut Marks,
    waiting: &mut NumberSet,
    steps: &mut Steps<L>,
)
    requires wired { IsWiringOf graph.now.plant graph.now.wiring }
    requires tapped { AreTapsOf graph.now.plant graph.now.crosspoints graph.now.taps }
    requires marks { AreMarksOf graph.now.plant graph.now.crosspoints marks.old }
    requires devices { AreDevices graph.now.plant waiting.old }
    ensures relit { AreRelit graph.now.plant graph.now.crosspoints roots.now [] marks.old marks.new
        waiting.old waiting.new }
    ensures all { waiting.new ≡ empty }
    ensures counted { steps.new + 6 * weigh (device_weight graph.now.plant) (contains marks.old.fed)
        ≤ steps.old + 6 * (weigh (device_weight graph.now.plant) (contains waiting.old)
        + weigh (device_weight graph.now.plant) (contains marks.new.fed)) }
{
    while let Some(device) = waiting.lowest() {
        waiting.remove(device);
        relight_behind(graph, roots, DeviceId::of(device), marks, waiting, steps);
    }
}

// Looks again at a destination and at the buses that it switches.
fn relight_switched<L: Ledger>(
    graph: &Graph<'_, L>,
    roots: &NumberSet,
    dest: DestId,
    marks: &mut Marks,
    waiting: &mut NumberSet,
    steps: &mut Steps<L>,
)
    requires wired { IsWiringOf graph.now.plant graph.now.wiring }
    requires tapped { AreTapsOf graph.now.plant graph.now.crosspoints graph.now.taps }
    requires dest { IsDest graph.now.plant dest }
    requires marks { AreMarksOf graph.now.plant graph.now.crosspoints marks.old }
    ensures relit { AreRelit graph.now.plant graph.now.crosspoints roots.now
        (with_switched graph.now.plant dest) marks.old marks.new waiting.old waiting.new }
    ensures counted { steps.new ≤ steps.old + 6 * length (with_switched graph.now.plant dest) }
{
    relight(graph, roots, dest, marks, waiting, steps);
    for place in 0..BUSES {
        let Some(bus) = graph.switched_by(dest, place, steps) else {
            return;
        };
        relight(graph, roots, bus, marks, waiting, steps);
    }
}

// Looks again at the buses of a device.
fn relight_behind<L: Ledger>(
    graph: &Graph<'_, L>,
    roots: &NumberSet,
    device: DeviceId,
    marks: &mut Marks,
    waiting: &mut NumberSet,
    steps: &mut Steps<L>,
)
    requires wired { IsWiringOf graph.now.plant graph.now.wiring }
    requires tapped { AreTapsOf graph.now.plant graph.now.crosspoints graph.now.taps }
    requires marks { AreMarksOf graph.now.plant graph.now.crosspoints marks.old }
    ensures relit { AreRelit graph.now.plant graph.now.crosspoints roots.now
        (buses_at graph.now.plant device) marks.old marks.new waiting.old waiting.new }
    ensures counted { steps.new ≤ steps.old + 6 * suc (length (buses_at graph.now.plant device)) }
{
    for place in 0..BUSES {
        let Some(bus) = graph.bus(device, place, steps) else {
            return;
        };
        relight(graph, roots, bus, marks, waiting, steps);
    }
}

// Marks a destination, where it is a root or a bus that is on of a device that is fed.
fn relight<L: Ledger>(
    graph: &Graph<'_, L>,
    roots: &NumberSet,
    dest: DestId,
    marks: &mut Marks,
    waiting: &mut NumberSet,
    steps: &mut Steps<L>,
)
    requires wired { IsWiringOf graph.now.plant graph.now.wiring }
    requires tapped { AreTapsOf graph.now.plant graph.now.crosspoints graph.now.taps }
    requires dest { IsDest graph.now.plant dest }
    requires marks { AreMarksOf graph.now.plant graph.now.crosspoints marks.old }
    ensures relit { AreRelit graph.now.plant graph.now.crosspoints roots.now (dest ∷ []) marks.old
        marks.new waiting.old waiting.new }
    ensures counted { steps.new ≤ steps.old + 5 }
{
    if !is_reached(graph, roots, marks, dest, steps) {
        return;
    }
    light(graph, dest, marks, waiting, steps);
}

// Whether a destination is a root, or a bus that is on of a device that is fed.
fn is_reached<L: Ledger>(
    graph: &Graph<'_, L>,
    roots: &NumberSet,
    marks: &Marks,
    dest: DestId,
    steps: &mut Steps<L>,
) -> bool
    requires wired { IsWiringOf graph.now.plant graph.now.wiring }
    requires dest { dest < number_limit }
    ensures is { result ≡ is_reached graph.now.plant graph.now.crosspoints roots.now
        marks.now dest }
    ensures counted { steps.new ≤ steps.old + 2 }
{
    if roots.contains(dest.get()) {
        return true;
    }
    let Some(device) = graph.device_of(dest, steps) else {
        return false;
    };
    graph.is_on(dest, steps) && marks.is_fed(device)
}

// Marks a destination, if it has no mark. A device that is fed since waits.
fn light<L: Ledger>(
    graph: &Graph<'_, L>,
    dest: DestId,
    marks: &mut Marks,
    waiting: &mut NumberSet,
    steps: &mut Steps<L>,
)
    requires wired { IsWiringOf graph.now.plant graph.now.wiring }
    requires tapped { AreTapsOf graph.now.plant graph.now.crosspoints graph.now.taps }
    requires dest { IsDest graph.now.plant dest }
    requires marks { AreMarksOf graph.now.plant graph.now.crosspoints marks.old }
    ensures one { MarksOne marks.old marks.new dest }
    ensures marks { AreMarksOf graph.now.plant graph.now.crosspoints marks.new }
    ensures turned { StayTurned marks.old marks.new }
    ensures fed { AreFedMore graph.now.plant marks.old.fed marks.new.fed waiting.old waiting.new }
    ensures news { WaitOnceFed marks.old.fed marks.new.fed waiting.old waiting.new }
    ensures counted { steps.new ≤ steps.old + 3 }
{
    let dest = dest.get();
    if marks.is_live(dest) {
        return;
    }
    let Some(device) = marks.put(graph, dest, steps) else {
        return;
    };
    waiting.insert(device.get());
}
