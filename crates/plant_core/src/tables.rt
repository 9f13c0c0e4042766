//! What is kept beside the state of a plant, so that nothing is looked for in it.

ghost use Rattle.std.specs.Prelude.{◌≡◌, ◌<◌, ℕ, true, false, All, IfOk, length};
ghost use Rattle.std.specs.FinMap.{empty};
ghost use Rattle.plant_config.specs.Plant.{destinations_of};
ghost use Rattle.plant_config.specs.IsPlant.{IsPlant};
ghost use Rattle.crosspoint_state.specs.Crosspoints.{NamesOnce, is_idle};
ghost use Rattle.crosspoint_state.specs.Taps.{ArePointsOf};
ghost use Rattle.crosspoint_state.specs.Ties.{HaveValidTies};
ghost use Rattle.crosspoint_state.specs.Applied.{applied, are_enough};
ghost use Rattle.salvo_groups.specs.Groups.{IsGroup};
ghost use Rattle.due_displays.specs.Due.{AreDueOf, is_due};
ghost use Rattle.plant_core.specs.State.{AreCrosspoints, IsChangeOf};
ghost use Rattle.plant_core.specs.StateInside.{AreTablesOf};
ghost use Rattle.plant_core.specs.DueInside.{HaveTurned};
ghost use Rattle.plant_core.specs.ReadInside.{AreBrought};

use crate::brought::brought;
use crate::moved::Moved;
use crate::tallies::Tallies;
use change_boards::Screens;
use crosspoint_state::Crosspoints;
use due_displays::DueDisplays;
use mixer_effects::Mixers;
use plant_config::{Change, Plant};
use std::alloc::{AllocError, Global};
use tie_pools::{Planned, Ties};

/// The tables of a plant and its crosspoints.
#[derive(Debug, Drop)]
pub(crate) struct Tables {
    pub(crate) ties: Ties,
    pub(crate) mixers: Mixers,
    pub(crate) tallies: Tallies,
    pub(crate) screens: Screens,
    // Of the last group that was taken, the changes that changed something.
    pub(crate) moved: Moved,
}

/// What is kept beside a state: its tables, and which displays are due.
#[derive(Debug, Drop)]
pub(crate) struct Indexes {
    pub(crate) tables: Box<Tables>,
    pub(crate) due: Box<DueDisplays>,
}

impl Indexes {
    // What is kept for a plant of which all destinations are parked: all displays are due.
    pub(crate) fn new(alloc: Global, plant: &Plant) -> Result<Indexes, AllocError>
        requires { IsPlant plant.now }
        ensures tables { IfOk result
            (λ indexes. AreTablesOf plant.now empty indexes.tables.value) }
        ensures due { IfOk result (λ indexes. AreDueOf plant.now indexes.due.value) }
        ensures all { IfOk result (λ indexes.
            (display : ℕ) → display < length plant.now.displays
            → is_due plant.now indexes.due.value display ≡ true) }
    {
        let tables = Box::new(alloc, Tables::new(alloc, plant)?)?;
        let due = Box::new(alloc, DueDisplays::new(alloc, plant, &tables.screens)?)?;
        Ok(Indexes { tables, due })
    }

    // What is kept for a plant whose destinations carry this: all displays are due.
    pub(crate) fn of(
        alloc: Global,
        plant: &Plant,
        points: &Crosspoints,
    ) -> Result<Indexes, AllocError>
        requires plant { IsPlant plant.now }
        requires kept { ArePointsOf plant.now points.now }
        requires points { AreCrosspoints plant.now points.now.entries }
        requires ties { HaveValidTies plant.now points.now.entries }
        ensures tables { IfOk result (λ indexes.
            AreTablesOf plant.now points.now.entries indexes.tables.value) }
        ensures due { IfOk result (λ indexes. AreDueOf plant.now indexes.due.value) }
        ensures all { IfOk result (λ indexes.
            (display : ℕ) → display < length plant.now.displays
            → is_due plant.now indexes.due.value display ≡ true) }
    {
        let moves = brought(alloc, plant, points)?;
        let mut indexes = Indexes::new(alloc, plant)?;
        indexes.tables.settle(plant, points, &moves);
        Ok(indexes)
    }
}

impl Tables {
    // The tables of a plant of which all destinations are parked.
    pub(crate) fn new(alloc: Global, plant: &Plant) -> Result<Tables, AllocError>
        requires { IsPlant plant.now }
        ensures { IfOk result (AreTablesOf plant.now empty) }
    {
        // What has most in it is made last: each part is let go where a later one has no memory.
        let moved = Moved::new(alloc)?;
        let screens = Screens::new(alloc, plant)?;
        let ties = Ties::new(alloc, plant)?;
        let mixers = Mixers::new(alloc, plant)?;
        let tallies = Tallies::new(alloc, plant)?;
        Ok(Tables {
            ties,
            mixers,
            tallies,
            screens,
            moved,
        })
    }

    // The tables of a plant of which all destinations were parked become those of what its destinations carry.
    fn settle(&mut self, plant: &Plant, points: &Crosspoints, moves: &[Change])
        requires plant { IsPlant plant.now }
        requires kept { ArePointsOf plant.now points.now }
        requires points { AreCrosspoints plant.now points.now.entries }
        requires ties { HaveValidTies plant.now points.now.entries }
        requires tables { AreTablesOf plant.now empty self.old }
        requires moves { AreBrought points.now.entries (destinations_of plant.now) moves.now }
        ensures { AreTablesOf plant.now points.now.entries self.new }
    {
        self.ties.rebuild(plant, points);
        self.tallies.follow(plant, &self.mixers, points, moves);
    }

    // Makes changes for which the ties are enough, none of them idle, and follows them in the tallies.
    #[inline(always)]
    pub(crate) fn make(
        &mut self,
        plant: &Plant,
        points: &mut Crosspoints,
        planned: Planned,
        changes: &[Change],
    )
        requires plant { IsPlant plant.now }
        requires kept { ArePointsOf plant.now points.old }
        requires points { AreCrosspoints plant.now points.old.entries }
        requires ties { HaveValidTies plant.now points.old.entries }
        requires tables { AreTablesOf plant.now points.old.entries self.old }
        requires changes { All (IsChangeOf plant.now) changes.now }
        requires busy { All (λ change. is_idle points.old.entries change ≡ false) changes.now }
        requires once { NamesOnce changes.now }
        requires enough { are_enough plant.now points.old.entries changes.now ≡ true }
        ensures made { points.new.entries ≡ applied plant.now points.old.entries changes.now }
        ensures kept { ArePointsOf plant.now points.new }
        ensures tables { AreTablesOf plant.now points.new.entries self.new }
        ensures turned { HaveTurned plant.now points.old.entries points.new.entries changes.now
            self.new.tallies }
    {
        self.ties.commit(plant, points, planned, changes);
        self.tallies.follow(plant, &self.mixers, points, changes);
    }

    // The same of the changes of a group. Those that change nothing aren't followed.
    #[inline(never)]
    pub(crate) fn make_group(
        &mut self,
        plant: &Plant,
        points: &mut Crosspoints,
        planned: Planned,
        entries: &[Change],
    )
        requires plant { IsPlant plant.now }
        requires kept { ArePointsOf plant.now points.old }
        requires points { AreCrosspoints plant.now points.old.entries }
        requires ties { HaveValidTies plant.now points.old.entries }
        requires tables { AreTablesOf plant.now points.old.entries self.old }
        requires changes { All (IsChangeOf plant.now) entries.now }
        requires group { IsGroup entries.now }
        requires enough { are_enough plant.now points.old.entries entries.now ≡ true }
        ensures made { points.new.entries ≡ applied plant.now points.old.entries entries.now }
        ensures kept { ArePointsOf plant.now points.new }
        ensures tables { AreTablesOf plant.now points.new.entries self.new }
        ensures turned { HaveTurned plant.now points.old.entries points.new.entries
            self.new.moved self.new.tallies }
    {
        self.moved.take(points, entries);
        self.ties.commit(plant, points, planned, entries);
        self.tallies
            .follow(plant, &self.mixers, points, self.moved.as_slice());
    }
}
