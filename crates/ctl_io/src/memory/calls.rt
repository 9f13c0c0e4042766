//! The count of the calls that are made of an object in memory.

ghost use Rattle.std.specs.Prelude.{◌≡◌};
ghost use Rattle.ctl_io.specs.Calls.{next_fails, called, counted_back, uncalled};

use crate::FaultCount;
use std::marker::Model;

/// Counts the calls that are made of an object in memory, and says which of them fail.
/// The number of calls stands still at its type's end.
#[derive(Debug, Drop)]
pub struct CallCount {
    failing: Vec<u64>,
    made: u64,
    faults: FaultCount,
}

impl Model for CallCount {
    ghost use Rattle.ctl_io.specs.Calls.{Calls};

    ghost Value = { Calls };

    ghost view = { λ c. record { failing = c.failing.items; made = c.made; faults = c.faults } };
}

impl CallCount {
    /// No call was made. `failing` holds the numbers, from 0, of the calls that will fail.
    pub fn new(failing: Vec<u64>) -> CallCount
        ensures { result ≡ uncalled failing.items }
    {
        CallCount {
            failing,
            made: 0,
            faults: FaultCount::new(),
        }
    }

    /// Whether the number of the next call is listed.
    pub fn next_fails(&self) -> bool
        ensures { result ≡ next_fails self.now }
    {
        self.failing.as_slice().contains(&self.made)
    }

    /// Counts a call, and its fault where it failed.
    pub fn count(&mut self, failed: bool)
        ensures { self.new ≡ called failed self.old }
    {
        self.made = self.made.saturating_add(1);
        if failed {
            self.faults.raise();
        }
    }

    /// Counts a fault where an object with `faults` of its own is given back.
    pub fn count_back(&mut self, faults: u64)
        ensures { self.new ≡ counted_back faults self.old }
    {
        if faults > 0 {
            self.faults.raise();
        }
    }

    /// How often a call failed, or an object with faults was given back. The count stands still at its type's end.
    pub fn faults(&self) -> u64
        ensures { result ≡ self.now.faults }
    {
        self.faults.count()
    }
}
