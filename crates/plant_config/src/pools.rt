//! The pools of tie-lines of a plant, and whether any of them keeps ties for masters.

ghost use Rattle.std.specs.Prelude.{◌≡◌, IfOk};
ghost use Rattle.plant_config.specs.Reserves.{keep_some};

use crate::records::Pool;
use std::alloc::{AllocError, Global};
use std::marker::Model;

/// The pools of a plant. A contract sees them as their list.
#[derive(Debug, Drop)]
pub(crate) struct Pools {
    pools: Vec<Pool>,
    // Whether some of them keeps ties, so that nothing that asks for it looks through them.
    some_kept: bool,
}

impl Model for Pools {
    ghost use Rattle.std.specs.Prelude.{List, ◌≡◌};
    ghost use Rattle.plant_config.specs.declared.records.Pool.{Pool};
    ghost use Rattle.plant_config.specs.Reserves.{keep_some};

    ghost Value = { List Pool };

    ghost view = { λ pools. pools.pools.items };

    ghost invariant = { λ pools. pools.some_kept ≡ keep_some pools.pools.items };
}

impl Pools {
    /// These pools.
    pub(crate) fn of(pools: Vec<Pool>) -> Pools
        ensures { result ≡ pools.items }
    {
        let some_kept = keep_some(pools.as_slice());
        Pools { pools, some_kept }
    }

    /// Equal pools.
    pub(crate) fn copy(&self, alloc: Global) -> Result<Pools, AllocError>
        ensures { IfOk result (λ pools. pools ≡ self.now) }
    {
        Ok(Pools {
            pools: self.pools.as_slice().to_vec(alloc)?,
            some_kept: self.some_kept,
        })
    }

    /// The pools, in the order of their numbers.
    #[inline]
    pub(crate) fn as_slice(&self) -> &[Pool]
        ensures { result.now ≡ self.now }
    {
        self.pools.as_slice()
    }

    /// Whether some of them keeps ties for masters.
    #[inline]
    pub(crate) fn keep_some(&self) -> bool
        ensures { result ≡ keep_some self.now }
    {
        self.some_kept
    }
}

// Whether some of these pools keeps ties.
fn keep_some(pools: &[Pool]) -> bool
    ensures { result ≡ keep_some pools.now }
{
    pools.iter().any(|pool| 0 < pool.reserve)
}
