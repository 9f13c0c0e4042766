//! The count of faults that every object of the outside keeps.

ghost use Rattle.std.specs.Prelude.{◌≡◌};
ghost use Rattle.ctl_io.specs.Faults.{one_more};

use std::marker::Model;

/// How often the calls of an object failed. The count stands still at 2^64 - 1.
#[derive(Debug, Drop)]
pub struct FaultCount {
    count: u64,
}

impl Model for FaultCount {
    ghost use Rattle.std.specs.Prelude.{ℕ, ◌<◌, ◌^◌};

    ghost Value = { ℕ };

    ghost view = { λ f. f.count };

    ghost invariant = { λ f. f.count < 2 ^ 64 };
}

impl FaultCount {
    /// No call has failed.
    pub fn new() -> FaultCount
        ensures { result ≡ 0 }
    {
        FaultCount { count: 0 }
    }

    /// How often a call failed.
    pub fn count(&self) -> u64
        ensures { result ≡ self.now }
    {
        self.count
    }

    /// Counts one more.
    pub fn raise(&mut self)
        ensures { self.new ≡ one_more self.old }
    {
        self.count = self.count.saturating_add(1);
    }
}
