//! Marks of what is live, and what is on by them.

ghost use Rattle.std.specs.Prelude.{◌≡◌, ◌≢◌, ◌+◌, ◌<◌, ◌≤◌, [], ℕ, true, false, length, Bool};
ghost use Rattle.std.specs.Prelude.{Option, Some, All, IfOk, vec_capacity};
ghost use Rattle.std.specs.Prelude.{IfSome};
ghost use Rattle.std.specs.Option.{option_and_then};
ghost use Rattle.std.specs.FinMap as finite;
ghost use Rattle.std.specs.FinSet.{empty, contains, insert, remove};
ghost use Rattle.number_tables.specs.Numbers.{number_limit};
ghost use Rattle.tap_lists.specs.Lists.{linked, unlinked, IsLoose, IsUnder, IsHeadOf};
ghost use Rattle.plant_config.specs.Plant.{destinations_of};
ghost use Rattle.plant_config.specs.IsPlant.{IsPlant, IsMainDest};
ghost use Rattle.crosspoint_state.specs.Crosspoints as carried;
ghost use Rattle.crosspoint_state.specs.Taps.{origin_at, AreTapsOf};
ghost use Rattle.mixer_effects.specs.Buses.{fed_device};
ghost use Rattle.mixer_effects.specs.Wiring.{IsWiringOf};
ghost use Rattle.tally.specs.Marks.{AreMarksOf, is_lit};
ghost use Rattle.tally.specs.MarkLaws.{AreSettled};
ghost use Rattle.tally.specs.Kept.{AreMembers};
ghost use Rattle.tally.specs.MarksInside.{Toggles, Turns, StayTurned, FeedsMore, IsFedNow};

use crate::roots::set_of;
use mixer_effects::Graph;
use number_tables::NumberSet;
use plant_config::{DestId, DeviceId, Plant, SourceId};
use std::alloc::{AllocError, Global};
use std::marker::Model;
use std::sync::ledger::{Blank, Ledger};
use tap_lists::{Steps, Taps, links_insert_first, unlinks_remove};

/// Which destinations are marked live, and by them which sources and which devices are on.
#[derive(Debug, Drop)]
pub(crate) struct Marks {
    /// The destinations that are marked live.
    live: NumberSet,
    /// Under each local source, those of them that carry its picture.
    lit: Taps,
    /// The devices whose output is such a picture.
    fed: NumberSet,
    /// The local sources that went on or off since the update began.
    turned: NumberSet,
}

impl Model for Marks {
    ghost use Rattle.tally.specs.Marks.{Marks as Marked, marks_code};

    ghost Value = { Marked };

    ghost coded = { marks_code };

    ghost view = { λ marks. record {
      live = marks.live;
      lit = marks.lit;
      fed = marks.fed;
      turned = marks.turned;
    } };
}

impl Marks {
    /// The marks of a plant of which all destinations are parked: the roots are live, and nothing is on.
    pub(crate) fn new(alloc: Global, plant: &Plant, roots: &[DestId]) -> Result<Marks, AllocError>
        requires plant { IsPlant plant.now }
        requires roots { All (IsMainDest plant.now) roots.now }
        ensures settled { IfOk result (AreSettled plant.now finite.empty roots.now) }
        ensures turned { IfOk result (λ marks. marks.turned ≡ empty) }
    {
        let live = set_of(alloc, roots)?;
        let lit = Taps::new(alloc, plant.source_count(), plant.destination_count())?;
        let fed = NumberSet::new(alloc)?;
        let turned = NumberSet::new(alloc)?;
        Ok(Marks {
            live,
            lit,
            fed,
            turned,
        })
    }

    /// Whether a local source is carried by a destination that is marked. It has a count of its own of what is read.
    pub(crate) fn is_on<L: Ledger>(&self, origin: SourceId, blank: Blank) -> bool
        requires name { blank.name ≡ L.name }
        requires parts { blank.parts ≡ L.parts }
        requires some { 0 < blank.parts }
        ensures { result ≡ is_lit self.now.lit origin }
    {
        let (book, share) = blank.open::<L>();
        let mut steps = Steps::begin(book, share);
        self.lit.first(origin.get(), &mut steps).is_some()
    }

    /// Whether a destination is marked, by its number.
    pub(crate) fn is_live(&self, dest: u32) -> bool
        requires { dest < number_limit }
        ensures { result ≡ contains self.now.live dest }
    {
        self.live.contains(dest)
    }

    /// Whether a device's output is carried by a destination that is marked.
    pub(crate) fn is_fed(&self, device: DeviceId) -> bool
        requires { device < number_limit }
        ensures { result ≡ contains self.now.fed device }
    {
        self.fed.contains(device.get())
    }

    /// Marks a destination live, by its number. The device that is fed since, if there is one.
    pub(crate) fn put<L: Ledger>(
        &mut self,
        graph: &Graph<'_, L>,
        dest: u32,
        steps: &mut Steps<L>,
    ) -> Option<DeviceId>
        requires limit { dest < number_limit }
        requires dest { dest < destinations_of graph.now.plant }
        requires dark { contains self.old.live dest ≡ false }
        requires wired { IsWiringOf graph.now.plant graph.now.wiring }
        requires tapped { AreTapsOf graph.now.plant graph.now.crosspoints graph.now.taps }
        requires marks { AreMarksOf graph.now.plant graph.now.crosspoints self.old }
        ensures live { self.new.live ≡ insert self.old.live dest }
        ensures marks { AreMarksOf graph.now.plant graph.now.crosspoints self.new }
        ensures turned { StayTurned self.old self.new }
        ensures fed { FeedsMore self.old.fed self.new.fed result }
        ensures device { IfSome result (IsFedNow graph.now.plant self.old.fed) }
        ensures counted { steps.new ≤ steps.old + 3 }
    {
        self.live.insert(dest);
        let origin = graph.origin_at(DestId::of(dest), steps)?;
        if put_lit(&mut self.lit, &mut self.turned, origin.get(), dest, steps) {
            return None;
        }
        let device = graph.fed_device(origin, steps)?;
        self.fed.insert(device.get());
        Some(device)
    }

    /// Takes the mark of a destination away, by its number. The device that the destination fed, if there is one.
    pub(crate) fn take<L: Ledger>(
        &mut self,
        graph: &Graph<'_, L>,
        dest: u32,
        steps: &mut Steps<L>,
    ) -> Option<DeviceId>
        requires limit { dest < number_limit }
        requires marked { contains self.old.live dest ≡ true }
        requires wired { IsWiringOf graph.now.plant graph.now.wiring }
        requires marks { (points : carried.Crosspoints)
            × AreMarksOf graph.now.plant points self.old }
        ensures live { self.new.live ≡ remove self.old.live dest }
        ensures marks { (points : carried.Crosspoints)
            → AreMarksOf graph.now.plant points self.old
            → AreMarksOf graph.now.plant points self.new }
        ensures turned { StayTurned self.old self.new }
        ensures device { (points : carried.Crosspoints)
            → AreMarksOf graph.now.plant points self.old
            → result ≡ option_and_then (fed_device graph.now.plant)
            (origin_at graph.now.plant points dest) }
        ensures below { IfSome result (λ device. device < number_limit) }
        ensures counted { steps.new ≤ steps.old + 2 }
    {
        self.live.remove(dest);
        let origin = self.lit.head_of(dest)?;
        let is_lit = take_lit(&mut self.lit, &mut self.turned, origin, dest, steps);
        let device = graph.fed_device(SourceId::of(origin), steps)?;
        if is_lit {
            return Some(device);
        }
        self.fed.remove(device.get());
        Some(device)
    }

    /// Gives the local sources that went on or off since the update began, and begins anew.
    pub(crate) fn take_turned(&mut self, flipped: &mut Vec<SourceId>)
        requires room { (origin : ℕ) → contains self.old.turned origin ≡ true
            → origin < vec_capacity flipped.old }
        ensures turned { self.new.turned ≡ empty }
        ensures live { self.new.live ≡ self.old.live }
        ensures lit { self.new.lit ≡ self.old.lit }
        ensures fed { self.new.fed ≡ self.old.fed }
        ensures members { AreMembers self.old.turned flipped.new.items }
        ensures capacity { vec_capacity flipped.new ≡ vec_capacity flipped.old }
    {
        flipped.clear();
        drain(&mut self.turned, flipped);
    }
}

// Moves the members of a set to a list, the lowest first.
fn drain(numbers: &mut NumberSet, list: &mut Vec<SourceId>)
    requires none { list.old.items ≡ [] }
    requires room { (number : ℕ) → contains numbers.old number ≡ true
        → number < vec_capacity list.old }
    ensures all { numbers.new ≡ empty }
    ensures members { AreMembers numbers.old list.new.items }
    ensures capacity { vec_capacity list.new ≡ vec_capacity list.old }
{
    while let Some(number) = numbers.lowest() {
        numbers.remove(number);
        list.push_reserved(SourceId::of(number));
    }
}

// Puts a destination under a local source. Whether another one was under it.
fn put_lit<L: Ledger>(
    lit: &mut Taps,
    turned: &mut NumberSet,
    origin: u32,
    dest: u32,
    steps: &mut Steps<L>,
) -> bool
    requires head { origin < length lit.old.by_head }
    requires limit { origin < number_limit }
    requires member { dest < lit.old.members }
    requires loose { IsLoose lit.old dest }
    ensures lit { lit.new ≡ linked lit.old origin dest }
    ensures was { result ≡ is_lit lit.old origin }
    ensures turns { Turns lit.old lit.new turned.old turned.new }
    ensures counted { steps.new ≡ steps.old + 1 }
{
    links_insert_first();
    let was_lit = lit.first(origin, steps).is_some();
    lit.link(origin, dest);
    if !was_lit {
        toggle(turned, origin);
    }
    was_lit
}

// Takes a destination away from its local source. Whether another one is left under it.
fn take_lit<L: Ledger>(
    lit: &mut Taps,
    turned: &mut NumberSet,
    origin: u32,
    dest: u32,
    steps: &mut Steps<L>,
) -> bool
    requires limit { origin < number_limit }
    requires under { IsUnder lit.old origin dest }
    ensures lit { lit.new ≡ unlinked lit.old dest }
    ensures is { result ≡ is_lit lit.new origin }
    ensures others { (other : ℕ) → other ≢ origin
        → is_lit lit.new other ≡ is_lit lit.old other }
    ensures turns { Turns lit.old lit.new turned.old turned.new }
    ensures counted { steps.new ≡ steps.old + 1 }
{
    unlinks_remove();
    lit.stand_once();
    lit.unlink(dest);
    let is_lit = lit.first(origin, steps).is_some();
    if !is_lit {
        toggle(turned, origin);
    }
    is_lit
}

// Adds a number that isn't a member, and takes one away that is.
fn toggle(numbers: &mut NumberSet, number: u32)
    requires { number < number_limit }
    ensures { Toggles numbers.old numbers.new number }
{
    if numbers.contains(number) {
        numbers.remove(number);
    } else {
        numbers.insert(number);
    }
}
