//! Whether a field of a destination in a state's text keeps the rules.

ghost use Rattle.std.specs.Prelude.{◌≡◌, ◌+◌, ◌<◌, ◌≤◌, length, true, Ok, IfOk, IfSome};
ghost use Rattle.plant_config.specs.Sources.{origin_of, pool_of};
ghost use Rattle.plant_core.specs.StateFields.{place_of_dest};
ghost use Rattle.plant_core.specs.StateFault.{source_in, tie_in, pool_in, origin_in};
ghost use Rattle.plant_core.specs.StateFault.{source_holds, tie_holds, owner_holds};
ghost use Rattle.plant_core.specs.StateFault.{shares_by_origin};
ghost use Rattle.plant_core.specs.FirstTies.{AreFirstsOf, HoldBelow};

use crate::first_ties::{FirstDests, all_share_by_origin};
use crate::read_fields::{
    has_short_number, is_of_level, place_of_dest, some_source_at, some_tie_at, some_two_at,
};
use plant_config::{DestId, Plant, PoolId, SourceId, TieNo};
use std::alloc::AllocError;

/// The greatest number of a device.
const LAST_DEVICE: u16 = 1023;

/// A destination's source is none, or of its level.
#[tactic(auto, unfolding(crate::specs::StateFault::source_holds))]
pub(crate) fn source_holds(plant: &Plant, bytes: &[u8], dest: DestId) -> bool
    requires { place_of_dest dest + 10 ≤ length bytes.now }
    ensures { result ≡ source_holds plant.now bytes.now dest }
{
    match source_in(bytes, dest) {
        Some(source) => is_of_level(plant, dest, source),
        None => true,
    }
}

/// There is a tie exactly where the source is remote. It is one that the pool has, and shared as ties are.
pub(crate) fn tie_holds(
    plant: &Plant,
    bytes: &[u8],
    dest: DestId,
    by_tie: &mut FirstDests,
    by_origin: &mut FirstDests,
) -> Result<bool, AllocError>
    requires place { place_of_dest dest + 10 ≤ length bytes.now }
    requires earlier { HoldBelow plant.now bytes.now dest }
    requires firsts { AreFirstsOf plant.now bytes.now dest by_tie.old by_origin.old }
    ensures holds { IfOk result (λ holds. holds ≡ tie_holds plant.now bytes.now dest) }
    ensures firsts { result ≡ Ok true
        → AreFirstsOf plant.now bytes.now (dest + 1) by_tie.new by_origin.new }
{
    let tie = tie_in(bytes, dest);
    let Some(pool) = pool_in(plant, bytes, dest) else {
        return Ok(tie.is_none());
    };
    let Some(tie) = tie else {
        return Ok(false);
    };
    if tie.get() >= plant.pool(pool).ties {
        return Ok(false);
    }
    let Some(origin) = origin_in(plant, bytes, dest) else {
        return Ok(false);
    };
    all_share_by_origin(plant, bytes, dest, pool, tie, origin, by_tie, by_origin)
}

/// If an earlier destination carries a source by the same pool, the two have one tie exactly where they have one origin.
#[tactic(auto, unfolding(crate::specs::StateFault::shares_by_origin))]
pub(crate) fn shares_by_origin(plant: &Plant, bytes: &[u8], dest: DestId, earlier: DestId) -> bool
    requires place { place_of_dest dest + 10 ≤ length bytes.now }
    requires earlier { earlier ≤ dest }
    ensures { result ≡ shares_by_origin plant.now bytes.now dest earlier }
{
    if pool_in(plant, bytes, earlier) != pool_in(plant, bytes, dest) {
        return true;
    }
    let one_tie = tie_in(bytes, earlier) == tie_in(bytes, dest);
    let one_origin = origin_in(plant, bytes, earlier) == origin_in(plant, bytes, dest);
    one_tie == one_origin
}

// What a destination carries.
#[tactic(auto, unfolding(crate::specs::StateFault::source_in))]
fn source_in(bytes: &[u8], dest: DestId) -> Option<SourceId>
    requires { place_of_dest dest + 10 ≤ length bytes.now }
    ensures { result ≡ source_in bytes.now dest }
{
    some_source_at(bytes, place_of_dest(dest))
}

/// By which tie.
#[tactic(auto, unfolding(crate::specs::StateFault::tie_in))]
pub(crate) fn tie_in(bytes: &[u8], dest: DestId) -> Option<TieNo>
    requires { place_of_dest dest + 10 ≤ length bytes.now }
    ensures { result ≡ tie_in bytes.now dest }
{
    some_tie_at(bytes, place_of_dest(dest) + 4)
}

/// By which pool.
#[tactic(auto, unfolding(crate::specs::StateFault::pool_in))]
pub(crate) fn pool_in(plant: &Plant, bytes: &[u8], dest: DestId) -> Option<PoolId>
    requires { place_of_dest dest + 10 ≤ length bytes.now }
    ensures pool { result ≡ pool_in plant.now bytes.now dest }
    ensures below { IfSome result (λ pool. pool < length plant.now.pools) }
{
    pool_of(plant, source_in(bytes, dest)?)
}

// From which origin.
#[tactic(auto, unfolding(crate::specs::StateFault::origin_in))]
fn origin_in(plant: &Plant, bytes: &[u8], dest: DestId) -> Option<SourceId>
    requires { place_of_dest dest + 10 ≤ length bytes.now }
    ensures { result ≡ origin_in plant.now bytes.now dest }
{
    origin_of(plant, source_in(bytes, dest)?)
}

// The pool of a source, also of one that the plant hasn't.
fn pool_of(plant: &Plant, source: SourceId) -> Option<PoolId>
    ensures pool { result ≡ pool_of plant.now source }
    ensures below { IfSome result (λ pool. pool < length plant.now.pools) }
{
    if plant.source_count() <= source.get() {
        return None;
    }
    plant.pool_of(source)
}

// The origin of a source, `None` of one that the plant hasn't.
fn origin_of(plant: &Plant, source: SourceId) -> Option<SourceId>
    ensures { result ≡ origin_of plant.now source }
{
    if plant.source_count() <= source.get() {
        return None;
    }
    Some(plant.origin(source))
}

/// An owner is none, or a device, and then the destination has a number up to 1023.
#[tactic(auto, unfolding(crate::specs::StateFault::owner_holds))]
pub(crate) fn owner_holds(plant: &Plant, bytes: &[u8], dest: DestId) -> bool
    requires { place_of_dest dest + 10 ≤ length bytes.now }
    ensures { result ≡ owner_holds plant.now bytes.now dest }
{
    let Some(device) = some_two_at(bytes, place_of_dest(dest) + 8) else {
        return true;
    };
    if device > LAST_DEVICE {
        return false;
    }
    has_short_number(plant, dest)
}
