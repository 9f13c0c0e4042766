//! The names of one level, with an index of them.

ghost use Rattle.std.specs.Prelude.{◌≡◌, ◌<◌, bytes_eq, length, All, IfOk, IfSome};
ghost use Rattle.std.specs.List.{IsDistinct};
ghost use Rattle.plant_file.specs.Ranges.{IsName};
ghost use Rattle.plant_names.specs.Lookup.{place_among};

use indexmap::IndexSet;
use plant_config::{Level, Name};
use plant_file::MAX_NAME;
use std::alloc::{AllocError, Global};
use std::marker::Model;

/// A level, with the names of its sources and of its destinations in the order of their numbers.
#[derive(Drop)]
pub(crate) struct LevelNames {
    pub(crate) at: Level,
    pub(crate) sources: IndexSet<Name>,
    pub(crate) dests: IndexSet<Name>,
}

impl Model for LevelNames {
    ghost use Rattle.plant_names.specs.NamesInside.{Named};

    ghost Value = { Named };

    ghost view = { λ level. record {
      at = level.at;
      sources = level.sources.keys;
      dests = level.dests.keys;
    } };
}

/// An index of names that differ: each has its number.
pub(crate) fn index_of(alloc: Global, names: &[Name]) -> Result<IndexSet<Name>, AllocError>
    requires { IsDistinct bytes_eq names.now }
    ensures { IfOk result (λ made. made.keys ≡ names.now) }
{
    let mut index = IndexSet::with_capacity(alloc, names.len())?;
    for name in names {
        index.insert(*name)?;
    }
    Ok(index)
}

/// The number of a name, `None` where no such name is among them.
pub(crate) fn number_of(names: &IndexSet<Name>, name: &[u8]) -> Option<usize>
    requires { All IsName names.now.keys }
    ensures place { result ≡ place_among name.now names.now.keys }
    ensures below { IfSome result (λ number. number < length names.now.keys) }
{
    if name.len() > MAX_NAME {
        return None;
    }
    names.get_index_of(&Name::of(name))
}
