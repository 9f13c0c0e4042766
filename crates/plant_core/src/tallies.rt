//! What is live and what is seen in a plant, kept up to date for both kinds of roots.

ghost use Rattle.std.specs.Prelude.{◌≡◌, ◌<◌, All, IfOk};
ghost use Rattle.std.specs.FinMap.{empty};
ghost use Rattle.plant_config.specs.Plant.{PlantData};
ghost use Rattle.plant_config.specs.IsPlant.{IsPlant, IsDest};
ghost use Rattle.crosspoint_state.specs.Crosspoints as carried;
ghost use Rattle.crosspoint_state.specs.Taps.{AreTapsOf};
ghost use Rattle.mixer_effects.specs.Wiring.{IsWiringOf};
ghost use Rattle.tally.specs.Tally.{roots_of};
ghost use Rattle.tally.specs.Kept.{IsKeptFor};
ghost use Rattle.tally.specs.Update.{AreMoves};
ghost use Rattle.plant_core.specs.StateInside.{AreTalliesOf, WereTallies};
ghost use Rattle.plant_core.specs.DueInside.{HaveTurned};

use crosspoint_state::Crosspoints;
use mixer_effects::{Graph, Mixers};
use plant_config::{Change, Plant};
use std::alloc::{AllocError, Global};
use std::marker::Brand;
use std::sync::ledger::{Blank, Ledger};
use tally::{Roots, Tally};
use tap_lists::Steps;

/// The tally for the air roots of a plant, and the one for its preview roots.
#[derive(Debug, Drop)]
pub(crate) struct Tallies {
    pub(crate) air: Tally,
    pub(crate) preview: Tally,
}

impl Tallies {
    // The tallies of a plant of which all destinations are parked.
    pub(crate) fn new(alloc: Global, plant: &Plant) -> Result<Tallies, AllocError>
        requires { IsPlant plant.now }
        ensures { IfOk result (AreTalliesOf plant.now empty) }
    {
        let air = Tally::new(alloc, plant, Roots::Air)?;
        let preview = Tally::new(alloc, plant, Roots::Preview)?;
        Ok(Tallies { air, preview })
    }

    // Follows changes that were made.
    #[inline]
    pub(crate) fn follow(
        &mut self,
        plant: &Plant,
        mixers: &Mixers,
        points: &Crosspoints,
        changes: &[Change],
    )
        requires wired { IsWiringOf plant.now mixers.now }
        requires tapped { AreTapsOf plant.now points.now.entries points.now.taps }
        requires dests { All (λ change. IsDest plant.now change.dest) changes.now }
        requires before { WereTallies plant.now points.now.entries changes.now self.old }
        ensures kept { AreTalliesOf plant.now points.now.entries self.new }
        ensures turned { (old : carried.Crosspoints) → AreTalliesOf plant.now old self.old
            → AreMoves old points.now.entries changes.now
            → HaveTurned plant.now old points.now.entries changes.now self.new }
    {
        self.follow_counted::<Brand>(plant, mixers, points, changes, Blank::new(1));
    }

    // The same, with a count of its own of what is read.
    #[inline]
    fn follow_counted<L: Ledger>(
        &mut self,
        plant: &Plant,
        mixers: &Mixers,
        points: &Crosspoints,
        changes: &[Change],
        blank: Blank,
    )
        requires name { blank.name ≡ L.name }
        requires parts { blank.parts ≡ L.parts }
        requires some { 0 < blank.parts }
        requires wired { IsWiringOf plant.now mixers.now }
        requires tapped { AreTapsOf plant.now points.now.entries points.now.taps }
        requires dests { All (λ change. IsDest plant.now change.dest) changes.now }
        requires before { WereTallies plant.now points.now.entries changes.now self.old }
        ensures kept { AreTalliesOf plant.now points.now.entries self.new }
        ensures turned { (old : carried.Crosspoints) → AreTalliesOf plant.now old self.old
            → AreMoves old points.now.entries changes.now
            → HaveTurned plant.now old points.now.entries changes.now self.new }
    {
        let (book, share) = blank.open::<L>();
        let mut steps = Steps::begin(book, share);
        let graph = Graph::new(plant, mixers, points);
        self.air.update(&graph, changes, &mut steps);
        self.preview.update(&graph, changes, &mut steps);
    }

    // The tally for such roots.
    pub(crate) fn at(&self, roots: Roots) -> &Tally
        ensures { (plant : PlantData) (points : carried.Crosspoints)
            → AreTalliesOf plant points self.now
            → IsKeptFor plant points (roots_of plant roots) result.now }
    {
        match roots {
            Roots::Air => &self.air,
            Roots::Preview => &self.preview,
        }
    }
}
