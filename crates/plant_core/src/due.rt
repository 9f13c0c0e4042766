//! Which displays become due by changes that were made.

ghost use Rattle.std.specs.Prelude.{◌≡◌, ◌↔◌, ◌<◌, ℕ, true, Contains};
ghost use Rattle.crosspoint_state.specs.Crosspoints as carried;
ghost use Rattle.crosspoint_state.specs.Taps.{AreTapsOf};
ghost use Rattle.tap_lists.specs.Lists.{IsUnder};
ghost use Rattle.tally.specs.Touched.{named_by};
ghost use Rattle.due_displays.specs.Due.{AreDueOf};
ghost use Rattle.plant_core.specs.DueInside.{StayDue, AreWatchersDue, AreTappedDue};
ghost use Rattle.plant_core.specs.DueInside.{HaveTurned, FollowValues};

use crate::tallies::Tallies;
use crosspoint_state::Crosspoints;
use due_displays::DueDisplays;
use plant_config::{Change, DestId, DisplayId, Plant, SourceId};
use std::marker::Brand;
use std::sync::ledger::{Blank, Ledger};
use tap_lists::Steps;

// The displays are due whose value changes may have moved: those that watch a destination that moved, or one whose source was
// turned on or off.
#[inline]
pub(crate) fn follow_changes(
    due: &mut DueDisplays,
    plant: &Plant,
    points: &Crosspoints,
    tallies: &Tallies,
    changes: &[Change],
)
    requires due { AreDueOf plant.now due.old }
    requires tapped { AreTapsOf plant.now points.now.entries points.now.taps }
    ensures { (old : carried.Crosspoints)
        → HaveTurned plant.now old points.now.entries changes.now tallies.now
        → FollowValues plant.now old points.now.entries due.old due.new }
{
    // Short way: without displays nobody watches.
    if plant.displays().is_empty() {
        return;
    }
    follow_watched(due, plant, points, tallies, changes);
}

// The same where there are displays.
#[inline(never)]
fn follow_watched(
    due: &mut DueDisplays,
    plant: &Plant,
    points: &Crosspoints,
    tallies: &Tallies,
    changes: &[Change],
)
    requires due { AreDueOf plant.now due.old }
    requires tapped { AreTapsOf plant.now points.now.entries points.now.taps }
    ensures { (old : carried.Crosspoints)
        → HaveTurned plant.now old points.now.entries changes.now tallies.now
        → FollowValues plant.now old points.now.entries due.old due.new }
{
    add_moved(due, plant, changes);
    add_turned(due, plant, points, tallies.air.flipped());
    add_turned(due, plant, points, tallies.preview.flipped());
}

// The displays that watch what changes name are due.
fn add_moved(due: &mut DueDisplays, plant: &Plant, changes: &[Change])
    requires { AreDueOf plant.now due.old }
    ensures due { StayDue plant.now due.old due.new }
    ensures moved { (dest : ℕ) → Contains (named_by changes.now) dest
        → AreWatchersDue plant.now due.new dest }
{
    for change in changes {
        due.add_watchers(plant, change.dest);
    }
}

// The displays that watch what carries the picture of one of these local sources are due.
fn add_turned(due: &mut DueDisplays, plant: &Plant, points: &Crosspoints, origins: &[SourceId])
    requires due { AreDueOf plant.now due.old }
    requires tapped { AreTapsOf plant.now points.now.entries points.now.taps }
    ensures due { StayDue plant.now due.old due.new }
    ensures tapped { (origin : ℕ) → Contains origins.now origin
        → AreTappedDue plant.now due.new points.now.taps origin }
{
    for origin in origins {
        add_taps::<Brand>(due, plant, points, *origin, Blank::new(1));
    }
}

// The same of one local source, with a count of its own of what is read. Where more destinations carry its picture than the
// plant has displays, the displays are gone through in place of the rest.
fn add_taps<L: Ledger>(
    due: &mut DueDisplays,
    plant: &Plant,
    points: &Crosspoints,
    origin: SourceId,
    blank: Blank,
)
    requires name { blank.name ≡ L.name }
    requires parts { blank.parts ≡ L.parts }
    requires some { 0 < blank.parts }
    requires due { AreDueOf plant.now due.old }
    requires tapped { AreTapsOf plant.now points.now.entries points.now.taps }
    ensures due { StayDue plant.now due.old due.new }
    ensures tapped { AreTappedDue plant.now due.new points.now.taps origin }
{
    let (book, share) = blank.open::<L>();
    let mut steps = Steps::begin(book, share);
    let taps = points.taps();
    let mut at = taps.first(origin.get(), &mut steps);
    for _display in 0..plant.displays().len() {
        let Some(dest) = at else {
            return;
        };
        due.add_watchers(plant, DestId::of(dest));
        at = taps.next(dest, &mut steps);
    }
    add_showing(due, plant, points, origin);
}

// The displays are due whose destination carries the picture of a local source.
#[inline(never)]
fn add_showing(due: &mut DueDisplays, plant: &Plant, points: &Crosspoints, origin: SourceId)
    requires { AreDueOf plant.now due.old }
    ensures due { StayDue plant.now due.old due.new }
    ensures tapped { AreTappedDue plant.now due.new points.now.taps origin }
{
    for number in 0..plant.displays().len() {
        let watch = plant.displays()[number].watch;
        if carries(points, watch, origin) {
            due.add(plant, DisplayId::of(number as u32));
        }
    }
}

// Whether a destination carries the picture of a local source.
fn carries(points: &Crosspoints, dest: DestId, origin: SourceId) -> bool
    ensures { (result ≡ true) ↔ IsUnder points.now.taps origin dest }
{
    match points.taps().head_of(dest.get()) {
        Some(head) => head == origin.get(),
        None => false,
    }
}
