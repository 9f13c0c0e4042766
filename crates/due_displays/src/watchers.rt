//! By which displays destinations are watched.

ghost use Rattle.std.specs.Prelude.{◌≡◌, replicate, None, IfOk};
ghost use Rattle.std.specs.Option.{option_flatten};
ghost use Rattle.plant_config.specs.IsPlant.{IsPlant};
ghost use Rattle.due_displays.specs.Watchers.{AreWatchersOf, value_at};

use plant_config::{DestId, Plant};
use std::alloc::{AllocError, Global};

/// The displays that watch each destination, the last of them first.
#[derive(Debug, Drop)]
pub(crate) struct Watchers {
    /// The last display that watches each destination.
    pub(crate) lasts: Vec<Option<u32>>,
    /// Of each display the last one before it that watches the same destination.
    pub(crate) befores: Vec<Option<u32>>,
}

impl Watchers {
    /// Those of a plant.
    pub(crate) fn new(alloc: Global, plant: &Plant) -> Result<Watchers, AllocError>
        requires { IsPlant plant.now }
        ensures { IfOk result (λ watchers. AreWatchersOf plant.now.displays watchers.lasts.items
            watchers.befores.items) }
    {
        let displays = plant.displays();
        let mut lasts = none_of_each(alloc, plant.destination_count() as usize)?;
        let mut befores = Vec::with_capacity(alloc, displays.len())?;
        for number in 0..displays.len() {
            let watch = displays[number].watch.get() as usize;
            befores.push(lasts[watch])?;
            lasts[watch] = Some(number as u32);
        }
        Ok(Watchers { lasts, befores })
    }

    /// The last display that watches a destination.
    pub(crate) fn last(&self, dest: DestId) -> Option<u32>
        ensures { result ≡ value_at self.now.lasts.items dest }
    {
        value_at(&self.lasts, dest.get())
    }

    /// The last display before this one that watches the same destination.
    pub(crate) fn before(&self, display: u32) -> Option<u32>
        ensures { result ≡ value_at self.now.befores.items display }
    {
        value_at(&self.befores, display)
    }
}

// The value at an index, `None` also past the end.
fn value_at(values: &[Option<u32>], index: u32) -> Option<u32>
    ensures { result ≡ value_at values.now index }
{
    values.get(index as usize).copied().flatten()
}

// So many times no value.
fn none_of_each(alloc: Global, count: usize) -> Result<Vec<Option<u32>>, AllocError>
    ensures { IfOk result (λ values. values.items ≡ replicate count None) }
{
    vec![in alloc; None; count]
}
