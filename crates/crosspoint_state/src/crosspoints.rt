//! The crosspoints of a plant.

ghost use Rattle.std.specs.Prelude.{◌≡◌, ◌<◌, IfOk};
ghost use Rattle.std.specs.FinMap.{empty, get};
ghost use Rattle.number_tables.specs.Table.{put};
ghost use Rattle.crosspoint_state.specs.Crosspoints.{source_of, is_idle};
ghost use Rattle.crosspoint_state.specs.Taps.{ArePointsOf};

use crate::spot::Spot;
use crate::tapped::{move_to, origin_of};
use number_tables::NumberMap;
use plant_config::{Change, DestId, Plant, SourceId};
use std::alloc::{AllocError, Global};
use std::marker::Model;
use tap_lists::Taps;

/// What each destination of a plant carries. A contract sees the finite map from destinations to spots, how many
/// destinations there is room for, and the tap lists.
#[derive(Debug, Drop)]
pub struct Crosspoints {
    spots: NumberMap<Spot>,
    /// Under each local source, the destinations that carry its picture.
    taps: Taps,
}

impl Model for Crosspoints {
    ghost use Rattle.crosspoint_state.specs.Taps.{Points, points_code};

    ghost Value = { Points };

    ghost coded = { points_code };

    ghost view = { λ crosspoints. record {
      entries = crosspoints.spots.entries;
      room = crosspoints.spots.room;
      taps = crosspoints.taps;
    } };
}

impl Crosspoints {
    /// Every destination of a plant is parked.
    pub fn new(alloc: Global, plant: &Plant) -> Result<Crosspoints, AllocError>
        ensures parked { IfOk result (λ crosspoints. crosspoints.entries ≡ empty) }
        ensures kept { IfOk result (ArePointsOf plant.now) }
    {
        let destinations = plant.destination_count();
        let spots = NumberMap::new(alloc, destinations as usize)?;
        let taps = Taps::new(alloc, plant.source_count(), destinations)?;
        Ok(Crosspoints { spots, taps })
    }

    /// What a destination carries, `None` where it is parked.
    pub fn at(&self, dest: DestId) -> Option<Spot>
        ensures { result ≡ get self.now.entries dest }
    {
        self.spots.get(dest.get())
    }

    /// The source of a destination, `None` where it is parked.
    pub fn source_at(&self, dest: DestId) -> Option<SourceId>
        ensures { result ≡ source_of self.now.entries dest }
    {
        source_in(&self.spots, dest)
    }

    /// The tap lists: under each local source of the plant, the destinations that carry its picture. The head of a destination
    /// is the origin of its source.
    pub fn taps(&self) -> &Taps
        ensures { result.now ≡ self.now.taps }
    {
        &self.taps
    }

    /// Gives a destination what it carries from now on, or parks it. No other destination changes.
    pub fn set(&mut self, plant: &Plant, dest: DestId, spot: Option<Spot>)
        requires dest { dest < self.old.room }
        requires kept { ArePointsOf plant.now self.old }
        ensures entries { self.new.entries ≡ put self.old.entries dest spot }
        ensures kept { ArePointsOf plant.now self.new }
    {
        self.spots.set(dest.get(), spot);
        let origin = origin_of(plant, source_in(&self.spots, dest));
        move_to(&mut self.taps, dest.get(), origin);
    }

    /// Whether a change asks for what stands already.
    pub fn is_idle(&self, change: &Change) -> bool
        ensures { result ≡ is_idle self.now.entries change.now }
    {
        self.source_at(change.dest) == change.source
    }
}

// The source of a destination, `None` where it is parked.
fn source_in(spots: &NumberMap<Spot>, dest: DestId) -> Option<SourceId>
    ensures { result ≡ source_of spots.now.entries dest }
{
    // kit: `spots.get(dest.get()).map(|spot| spot.source)` gets no proof, as the type of a field is named nowhere here.
    match spots.get(dest.get()) {
        Some(Spot { source, .. }) => Some(source),
        None => None,
    }
}
