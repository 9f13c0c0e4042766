//! The first destinations of a text that have a tie or an origin: whoever shares with them shares with all earlier ones.

ghost use Rattle.std.specs.Prelude.{◌≡◌, ◌+◌, ◌≤◌, ◌&&◌, Some, IfOk, OnOk, length, unwrap_or};
ghost use Rattle.std.specs.Ordering.{nat_cmp};
ghost use Rattle.std.specs.BTreeMap as tree;
ghost use Rattle.plant_core.specs.StateFields.{place_of_dest};
ghost use Rattle.plant_core.specs.StateFault.{pool_in, tie_in, origin_in, all_share_by_origin};
ghost use Rattle.plant_core.specs.FirstTies.{key_number, AreFirstsOf, HoldBelow, ComesFirst};

use crate::dest_fields::shares_by_origin;
use plant_config::{DestId, Plant, PoolId, SourceId, TieNo};
use std::alloc::AllocError;
use std::collections::BTreeMap;

/// The first destination that came to a number.
pub(crate) type FirstDests = BTreeMap<u64, DestId>;

/// Whether a destination shares its tie with all earlier ones as ties are shared.
pub(crate) fn all_share_by_origin(
    plant: &Plant,
    bytes: &[u8],
    dest: DestId,
    pool: PoolId,
    tie: TieNo,
    origin: SourceId,
    by_tie: &mut FirstDests,
    by_origin: &mut FirstDests,
) -> Result<bool, AllocError>
    requires place { place_of_dest dest + 10 ≤ length bytes.now }
    requires pool { pool_in plant.now bytes.now dest ≡ Some pool }
    requires tie { tie_in bytes.now dest ≡ Some tie }
    requires origin { origin_in plant.now bytes.now dest ≡ Some origin }
    requires earlier { HoldBelow plant.now bytes.now dest }
    requires firsts { AreFirstsOf plant.now bytes.now dest by_tie.old by_origin.old }
    ensures all { IfOk result (λ all. all ≡ all_share_by_origin plant.now bytes.now dest) }
    ensures firsts { OnOk result
        (AreFirstsOf plant.now bytes.now (dest + 1) by_tie.new by_origin.new) }
{
    let same_tie = first_at(key_number(pool, tie.get()), dest, by_tie)?;
    let same_origin = first_at(key_number(pool, origin.get()), dest, by_origin)?;
    let shares = shares_by_origin(plant, bytes, dest, same_tie);
    Ok(shares & shares_by_origin(plant, bytes, dest, same_origin))
}

// A number of its own for each pool and number.
fn key_number(pool: PoolId, number: u32) -> u64
    ensures { result ≡ key_number pool number }
{
    u64::from(pool.get()) * 4_294_967_296 + u64::from(number)
}

// The destination that came to a number first: this one where there is none.
fn first_at(number: u64, dest: DestId, firsts: &mut FirstDests) -> Result<DestId, AllocError>
    ensures first { IfOk result
        (λ first. first ≡ unwrap_or (tree.get nat_cmp firsts.old number) dest) }
    ensures firsts { OnOk result (ComesFirst firsts.old firsts.new number dest) }
{
    if let Some(first) = firsts.get(&number) {
        return Ok(*first);
    }
    firsts.insert(number, dest)?;
    Ok(dest)
}
