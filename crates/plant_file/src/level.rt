//! A level of a plant file, with its names.

ghost use Rattle.std.specs.Prelude.{◌≡◌};

use crate::name::Name;
use std::marker::Model;

/// A level of a matrix: how many sources and destinations it has, and what each is called.
#[derive(Debug, Drop)]
pub struct LevelEntry {
    pub(crate) matrix: u8,
    pub(crate) level: u8,
    pub(crate) sources: u32,
    pub(crate) destinations: u32,
    pub(crate) source_names: Vec<Name>,
    pub(crate) destination_names: Vec<Name>,
}

impl Model for LevelEntry {
    ghost use Rattle.plant_file.specs.FileData.{LevelData};

    ghost Value = { LevelData };

    ghost view = { λ level. record {
      matrix = level.matrix;
      level = level.level;
      sources = level.sources;
      destinations = level.destinations;
      source_names = level.source_names.items;
      destination_names = level.destination_names.items;
    } };
}

impl LevelEntry {
    /// Its matrix, 0 to 15.
    pub fn matrix(&self) -> u8
        ensures { result ≡ self.now.matrix }
    {
        self.matrix
    }

    /// Its number in the matrix, 0 to 15.
    pub fn level(&self) -> u8
        ensures { result ≡ self.now.level }
    {
        self.level
    }

    /// How many sources it has, 1 to 65535.
    pub fn sources(&self) -> u32
        ensures { result ≡ self.now.sources }
    {
        self.sources
    }

    /// How many destinations it has, 1 to 65536.
    pub fn destinations(&self) -> u32
        ensures { result ≡ self.now.destinations }
    {
        self.destinations
    }

    /// The name of each source, in the order of their numbers.
    pub fn source_names(&self) -> &[Name]
        ensures { result.now ≡ self.now.source_names }
    {
        self.source_names.as_slice()
    }

    /// The name of each destination, in the order of their numbers.
    pub fn destination_names(&self) -> &[Name]
        ensures { result.now ≡ self.now.destination_names }
    {
        self.destination_names.as_slice()
    }
}
