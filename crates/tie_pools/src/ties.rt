//! The ties of a plant.

ghost use Rattle.std.specs.Prelude.{IfOk};
ghost use Rattle.std.specs.FinMap.{empty};
ghost use Rattle.tie_pools.specs.Counts.{AreCountsOf};

use crate::demand::Demand;
use crate::holdings::Holdings;
use crate::ways::Ways;
use plant_config::Plant;
use std::alloc::{AllocError, Global};
use std::marker::Model;

/// The ties of a plant: by which way each remote source comes, how many destinations the ways feed, and which ties they
/// hold.
#[derive(Debug, Drop)]
pub struct Ties {
    pub(crate) ways: Ways,
    pub(crate) demand: Demand,
    pub(crate) holdings: Holdings,
}

impl Model for Ties {
    ghost use Rattle.tie_pools.specs.Counts.{Counts, counts_code};

    ghost Value = { Counts };

    ghost coded = { counts_code };

    ghost view = { λ ties. record {
      ways = ties.ways;
      fed = ties.demand.fed;
      used = ties.demand.used;
      sizes = ties.demand.sizes;
      ties = ties.holdings.ties;
      free = ties.holdings.free;
    } };
}

impl Ties {
    /// The ties of a plant of which nothing is carried.
    pub fn new(alloc: Global, plant: &Plant) -> Result<Ties, AllocError>
        ensures { IfOk result (AreCountsOf plant.now empty) }
    {
        let ways = Ways::new(alloc, plant)?;
        let demand = Demand::new(alloc, plant)?;
        let holdings = Holdings::new(alloc, plant)?;
        Ok(Ties {
            ways,
            demand,
            holdings,
        })
    }
}
