//! The tap list in which a destination stands.

ghost use Rattle.std.specs.Prelude.{◌≡◌, ◌<◌, length, Some, IfSome};
ghost use Rattle.std.specs.Option.{option_and_then};
ghost use Rattle.plant_config.specs.Plant.{sources_of};
ghost use Rattle.plant_config.specs.Sources.{origin_of};
ghost use Rattle.tap_lists.specs.Lists.{IsLoose};
ghost use Rattle.crosspoint_state.specs.TapsInside.{Loosens, Moves};

use plant_config::{Plant, SourceId};
use tap_lists::{Taps, links_insert_first, unlinks_remove};

// The number of the local source that a source stands for. `None` where there is no source, or the plant hasn't this one.
pub(crate) fn origin_of(plant: &Plant, source: Option<SourceId>) -> Option<u32>
    ensures origin { result ≡ option_and_then (origin_of plant.now) source }
    ensures below { IfSome result (λ origin. origin < sources_of plant.now) }
{
    let source = source?;
    if source.get() >= plant.source_count() {
        return None;
    }
    Some(plant.origin(source).get())
}

// Puts a destination under a head, wherever it was, or under none.
pub(crate) fn move_to(taps: &mut Taps, dest: u32, head: Option<u32>)
    requires head { IfSome head (λ head. head < length taps.old.by_head) }
    requires dest { dest < taps.old.members }
    ensures { Moves taps.old taps.new dest head }
{
    loosen(taps, dest);
    if let Some(head) = head {
        put_under(taps, head, dest);
    }
}

// Takes a destination away from its head, if it is under one.
fn loosen(taps: &mut Taps, dest: u32)
    ensures { Loosens taps.old taps.new dest }
{
    unlinks_remove();
    match taps.head_of(dest) {
        Some(_head) => taps.unlink(dest),
        None => {}
    }
}

// Puts a destination that is under no head under one.
fn put_under(taps: &mut Taps, head: u32, dest: u32)
    requires head { head < length taps.old.by_head }
    requires dest { dest < taps.old.members }
    requires loose { IsLoose taps.old dest }
    ensures { Moves taps.old taps.new dest (Some head) }
{
    links_insert_first();
    taps.link(head, dest);
}
