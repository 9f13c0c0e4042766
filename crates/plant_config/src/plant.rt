//! A plant and what can be asked of it.

ghost use Rattle.std.specs.Prelude.{◌≡◌, ◌<◌, IfOk};
ghost use Rattle.plant_config.specs.Limits.{level_source_limit};
ghost use Rattle.plant_config.specs.Plant.{dest_numbers, source_numbers};
ghost use Rattle.plant_config.specs.Plant.{destinations_of, sources_of};
ghost use Rattle.plant_config.specs.IsPlant.{IsPlant};
ghost use Rattle.plant_config.specs.Sites.{dest_at, source_at, level_at, level_of};
ghost use Rattle.plant_config.specs.Sites.{point_of, source_number_of};
ghost use Rattle.plant_config.specs.Bench.{bench};

use crate::numbers::{DestId, SourceId};
use crate::parts::{Mixing, Parts, Routing, Service};
use crate::records::{Level, Panel, Point};
use std::alloc::{AllocError, Global};
use std::marker::Model;

/// A plant: what the controller knows of its routers and panels. It never changes.
#[derive(Debug, Drop)]
pub struct Plant {
    // Behind one pointer: a plant is moved and let go in one step.
    pub(crate) parts: Box<Parts>,
}

impl Model for Plant {
    ghost use Rattle.plant_config.specs.Plant.{PlantData};
    ghost use Rattle.plant_config.specs.IsPlant.{IsPlant};

    ghost Value = { PlantData };

    ghost use Rattle.plant_config.specs.PlantInside.{fields_of};

    ghost view = { fields_of };

    ghost invariant = { λ plant. IsPlant (fields_of plant) };
}

impl Plant {
    /// The bench plant: one level of 32 by 32 with default names, and two panels, the second a master.
    pub fn bench(alloc: Global) -> Result<Plant, AllocError>
        ensures { IfOk result (λ plant. plant ≡ bench) }
    {
        let parts = Parts {
            routing: Routing::bench(alloc)?,
            mixing: Mixing::bench(alloc),
            service: Service::bench(alloc)?,
        };
        Ok(Plant {
            parts: Box::new(alloc, parts)?,
        })
    }

    /// An equal plant.
    pub fn copy(&self, alloc: Global) -> Result<Plant, AllocError>
        ensures equal { IfOk result (λ plant. plant ≡ self.now) }
        ensures plant { IsPlant self.now }
    {
        let parts = Parts {
            routing: self.parts.routing.copy(alloc)?,
            mixing: self.parts.mixing.copy(alloc)?,
            service: self.parts.service.copy(alloc)?,
        };
        Ok(Plant {
            parts: Box::new(alloc, parts)?,
        })
    }

    /// The levels, in the order matrix, level.
    pub fn levels(&self) -> &[Level]
        ensures levels { result.now ≡ self.now.levels }
        ensures plant { IsPlant self.now }
    {
        self.parts.routing.levels.as_slice()
    }

    /// The panels, in the order of their numbers.
    pub fn panels(&self) -> &[Panel]
        ensures panels { result.now ≡ self.now.panels }
        ensures plant { IsPlant self.now }
    {
        self.parts.service.panels.as_slice()
    }

    /// The level of this matrix and this level number. `None` where the plant has no such level.
    pub fn level_at(&self, matrix: u8, level: u8) -> Option<Level>
        ensures at { result ≡ level_at self.now matrix level }
        ensures plant { IsPlant self.now }
    {
        self.parts.routing.levels.at(matrix, level)
    }

    /// The destination of this number at a level. `None` where the plant has no such level or the level no such
    /// destination.
    pub fn dest(&self, matrix: u8, level: u8, number: u16) -> Option<DestId>
        ensures { result ≡ dest_at self.now matrix level number }
    {
        let at = self.level_at(matrix, level)?;
        let number = u32::from(number);
        if number < at.destinations {
            Some(DestId::of(at.first_dest + number))
        } else {
            None
        }
    }

    /// The destination at a place, as `dest` gives it.
    pub fn dest_of(&self, at: Point) -> Option<DestId>
        ensures { result ≡ dest_at self.now at.matrix at.level at.dest }
    {
        self.dest(at.matrix, at.level, at.dest)
    }

    /// The source of this number at a level. `None` where the plant has no such level or the level no such source.
    pub fn source(&self, matrix: u8, level: u8, number: u16) -> Option<SourceId>
        ensures { result ≡ source_at self.now matrix level number }
    {
        let at = self.level_at(matrix, level)?;
        let number = u32::from(number);
        if number < at.sources {
            Some(SourceId::of(at.first_source + number))
        } else {
            None
        }
    }

    // The level that has this destination.
    fn level_of_dest(&self, dest: DestId) -> Option<Level>
        ensures found { result ≡ level_of dest_numbers self.now dest }
        ensures plant { IsPlant self.now }
    {
        self.parts.routing.levels.of_dest(dest)
    }

    // The level that has this source.
    fn level_of_source(&self, source: SourceId) -> Option<Level>
        ensures found { result ≡ level_of source_numbers self.now source }
        ensures plant { IsPlant self.now }
    {
        self.parts.routing.levels.of_source(source)
    }

    /// The place of a destination.
    pub fn point(&self, dest: DestId) -> Point
        requires { dest < destinations_of self.now }
        ensures { point_of self.now dest ≡ Some result }
    {
        let at = self.level_of_dest(dest).unwrap();
        Point {
            matrix: at.matrix,
            level: at.level,
            dest: (dest.get() - at.first_dest) as u16,
        }
    }

    /// The number of a source in its level. It is below the most that a level has, which is the number that says 'parked' in
    /// messages of wide numbers.
    pub fn source_number(&self, source: SourceId) -> u16
        requires { source < sources_of self.now }
        ensures number { source_number_of self.now source ≡ Some result }
        ensures below { result < level_source_limit }
    {
        let at = self.level_of_source(source).unwrap();
        (source.get() - at.first_source) as u16
    }

    /// How many destinations the plant has in all.
    pub fn destination_count(&self) -> u32
        ensures count { result ≡ destinations_of self.now }
        ensures plant { IsPlant self.now }
    {
        self.parts.routing.dest_names.len() as u32
    }
}
