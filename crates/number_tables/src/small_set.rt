//! A set of small numbers.

ghost use Rattle.std.specs.Prelude.{◌≡◌, ◌<◌, IfSome};
ghost use Rattle.std.specs.FinSet.{empty, insert, remove};
ghost use Rattle.number_tables.specs.Numbers.{lowest, small_limit};

use crate::words::{clear_bit, lowest_bit, set_bit};
use std::marker::Model;

/// A set of numbers below 1,024, which takes no memory of its own.
#[derive(Debug, Drop)]
pub struct SmallSet {
    /// A bit for each number.
    words: [u64; 16],
    /// A bit for each word that isn't 0.
    summary: [u64; 1],
}

impl Model for SmallSet {
    ghost use Rattle.std.specs.FinSet as finite;
    ghost use Rattle.std.specs.Coded.{coded_ℕ};
    ghost use Rattle.number_tables.specs.Numbers.{Numbers};
    ghost use Rattle.number_tables.specs.SetInside.{members, IsSmallSummed};

    ghost Value = { Numbers };

    ghost coded = { finite.code coded_ℕ };

    ghost view = { λ set. members set.words };

    ghost invariant = { λ set. IsSmallSummed set.words set.summary };
}

impl SmallSet {
    /// No numbers.
    pub fn new() -> SmallSet
        ensures { result ≡ empty }
    {
        SmallSet {
            words: [0; 16],
            summary: [0],
        }
    }

    /// Adds a number, 0 to 1,023.
    pub fn insert(&mut self, number: u32)
        requires { number < small_limit }
        ensures { self.new ≡ insert self.old number }
    {
        if set_bit(&mut self.words, number) {
            return;
        }
        set_bit(&mut self.summary, number / 64);
    }

    /// Removes a number, 0 to 1,023.
    pub fn remove(&mut self, number: u32)
        requires { number < small_limit }
        ensures { self.new ≡ remove self.old number }
    {
        if clear_bit(&mut self.words, number) {
            clear_bit(&mut self.summary, number / 64);
        }
    }

    /// The lowest member, `None` where there is none.
    pub fn lowest(&self) -> Option<u32>
        ensures lowest { result ≡ lowest self.now }
        ensures below { IfSome result (λ number. number < small_limit) }
    {
        if self.summary[0] == 0 {
            return None;
        }
        let word = lowest_bit(&self.summary, 0);
        Some(lowest_bit(&self.words, word))
    }
}
