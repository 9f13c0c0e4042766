//! A tally that is kept up to date.

ghost use Rattle.std.specs.Prelude.{◌≡◌, ◌+◌, ◌<◌, ◌≤◌, ℕ, List, [], All, IfOk};
ghost use Rattle.std.specs.FinMap.{empty};
ghost use Rattle.plant_config.specs.Plant.{PlantData, sources_of};
ghost use Rattle.plant_config.specs.IsPlant.{IsPlant, IsDest};
ghost use Rattle.crosspoint_state.specs.Crosspoints as carried;
ghost use Rattle.crosspoint_state.specs.Taps.{AreTapsOf};
ghost use Rattle.mixer_effects.specs.Live.{is_live, is_seen};
ghost use Rattle.mixer_effects.specs.Wiring.{IsWiringOf};
ghost use Rattle.tally.specs.Tally.{roots_of};
ghost use Rattle.tally.specs.Reads.{read_bound};
ghost use Rattle.tally.specs.Kept.{IsKeptFor, IsUpdate, AreFlipped};

use crate::marks::Marks;
use crate::roots::{Roots, set_of};
use crate::settle::settle;
use mixer_effects::Graph;
use number_tables::{MAX_NUMBERS, NumberSet};
use plant_config::{Change, DestId, Plant, SourceId};
use std::alloc::{AllocError, Global};
use std::marker::{Brand, Model};
use std::sync::ledger::{Blank, Ledger};
use tap_lists::Steps;

/// Which destinations of a plant are live for some roots, and which sources are seen there. An update looks at what moved and
/// at what this reaches, and reads no more of the plant than a bound says.
#[derive(Debug, Drop)]
pub struct Tally {
    /// What is live, and what is on by it.
    marks: Marks,
    /// The roots.
    roots: NumberSet,
    /// The devices that an update has still to go through.
    waiting: NumberSet,
    /// Those that are in doubt.
    doubted: NumberSet,
    /// The local sources that the last update turned on or off.
    flipped: Vec<SourceId>,
}

impl Model for Tally {
    ghost use Rattle.std.specs.Prelude.{vec_capacity};
    ghost use Rattle.tally.specs.Kept.{Kept, kept_code};

    ghost Value = { Kept };

    ghost coded = { kept_code };

    ghost view = { λ tally. record {
      marks = tally.marks;
      roots = tally.roots;
      waiting = tally.waiting;
      doubted = tally.doubted;
      flipped = tally.flipped.items;
      room = vec_capacity tally.flipped;
    } };
}

impl Tally {
    /// The tally for these roots of a plant of which all destinations are parked. Nothing has flipped yet.
    pub fn new(alloc: Global, plant: &Plant, roots: Roots) -> Result<Tally, AllocError>
        requires { IsPlant plant.now }
        ensures kept { IfOk result (IsKeptFor plant.now empty (roots_of plant.now roots)) }
        ensures still { IfOk result (λ tally. tally.flipped ≡ []) }
    {
        let dests = roots.of(plant);
        let marks = Marks::new(alloc, plant, dests)?;
        let roots = set_of(alloc, dests)?;
        let waiting = NumberSet::new(alloc)?;
        let doubted = NumberSet::new(alloc)?;
        let flipped = Vec::with_capacity(alloc, plant.source_count() as usize)?;
        Ok(Tally {
            marks,
            roots,
            waiting,
            doubted,
            flipped,
        })
    }

    /// Follows changes that were made: each has moved what it names since the tally was made or last updated, and nothing else
    /// has moved.
    pub fn update<L: Ledger>(
        &mut self,
        graph: &Graph<'_, L>,
        changes: &[Change],
        steps: &mut Steps<L>,
    )
        requires wired { IsWiringOf graph.now.plant graph.now.wiring }
        requires tapped { AreTapsOf graph.now.plant graph.now.crosspoints graph.now.taps }
        requires dests { All (λ change. IsDest graph.now.plant change.dest) changes.now }
        requires before { (old : carried.Crosspoints) × ((roots : List ℕ)
            × IsUpdate graph.now.plant old graph.now.crosspoints roots changes.now self.old) }
        ensures kept { (old : carried.Crosspoints) (roots : List ℕ)
            → IsUpdate graph.now.plant old graph.now.crosspoints roots changes.now self.old
            → IsKeptFor graph.now.plant graph.now.crosspoints roots self.new }
        ensures flipped { (old : carried.Crosspoints) (roots : List ℕ)
            → IsUpdate graph.now.plant old graph.now.crosspoints roots changes.now self.old
            → AreFlipped graph.now.plant old graph.now.crosspoints roots self.new.flipped }
        ensures counted { (old : carried.Crosspoints) (roots : List ℕ)
            → IsUpdate graph.now.plant old graph.now.crosspoints roots changes.now self.old
            → steps.new ≤ steps.old
            + read_bound graph.now.plant old graph.now.crosspoints roots }
    {
        // Short way: without roots nothing is live.
        if self.roots.is_empty() {
            self.flipped.clear();
            return;
        }
        settle(
            graph,
            &self.roots,
            changes,
            &mut self.marks,
            &mut self.waiting,
            &mut self.doubted,
            steps,
        );
        self.marks.take_turned(&mut self.flipped);
    }

    /// Whether a destination is live.
    pub fn is_live(&self, dest: DestId) -> bool
        ensures { (plant : PlantData) (points : carried.Crosspoints) (roots : List ℕ)
            → IsKeptFor plant points roots self.now
            → result ≡ is_live plant points roots dest }
    {
        let dest = dest.get();
        if dest >= MAX_NUMBERS {
            return false;
        }
        self.marks.is_live(dest)
    }

    /// Whether a source is seen at the roots.
    pub fn on(&self, plant: &Plant, source: SourceId) -> bool
        requires { source < sources_of plant.now }
        ensures { (points : carried.Crosspoints) (roots : List ℕ)
            → IsKeptFor plant.now points roots self.now
            → result ≡ is_seen plant.now points roots source }
    {
        let origin = plant.origin(source);
        self.marks.is_on::<Brand>(origin, Blank::new(1))
    }

    /// The local sources that are seen since the last update and weren't, or were seen and aren't, in the order of their
    /// numbers.
    pub fn flipped(&self) -> &[SourceId]
        ensures { result.now ≡ self.now.flipped }
    {
        &self.flipped
    }
}
