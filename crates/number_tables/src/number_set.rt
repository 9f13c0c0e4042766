//! A set of numbers.

ghost use Rattle.std.specs.Prelude.{◌≡◌, ◌≢◌, ℕ, ◌/◌, ◌<◌, ◌↔◌, false, IsTrue, IfOk, IfSome};
ghost use Rattle.std.specs.FinSet.{empty, contains, insert, remove};
ghost use Rattle.number_tables.specs.Numbers.{lowest, number_limit, word_limit, HasBitsOf};

use crate::words::{
    clear_bit, has_bit, lowest_bit, put_word, set_bit, word_at, zero, zero_summed, zeroed,
};
use std::alloc::{AllocError, Global};
use std::marker::Model;

/// How many numbers there are: the members of a set are 0 to 65,535.
pub const MAX_NUMBERS: u32 = 65_536;

/// How many words have a bit for each number.
const WORDS: usize = MAX_NUMBERS as usize / 64;
/// How many words have a bit for each of these words.
const GROUPS: usize = WORDS / 64;

/// A set of numbers below 65,536.
#[derive(Debug, Drop)]
pub struct NumberSet {
    /// A bit for each number.
    words: Vec<u64>,
    /// A bit for each word that isn't 0.
    groups: Vec<u64>,
    /// A bit for each group that isn't 0.
    top: [u64; 1],
}

impl Model for NumberSet {
    ghost use Rattle.std.specs.FinSet as finite;
    ghost use Rattle.std.specs.Coded.{coded_ℕ};
    ghost use Rattle.number_tables.specs.Numbers.{Numbers};
    ghost use Rattle.number_tables.specs.SetInside.{members, IsSummed};

    ghost Value = { Numbers };

    ghost coded = { finite.code coded_ℕ };

    ghost view = { λ set. members set.words.items };

    ghost invariant = { λ set. IsSummed set.words.items set.groups.items set.top };
}

impl NumberSet {
    /// No numbers.
    pub fn new(alloc: Global) -> Result<NumberSet, AllocError>
        ensures { IfOk result (λ set. set ≡ empty) }
    {
        let words = zeroed(alloc, WORDS)?;
        let groups = zeroed(alloc, GROUPS)?;
        Ok(NumberSet {
            words,
            groups,
            top: [0],
        })
    }

    /// Whether a number, 0 to 65,535, is a member.
    pub fn contains(&self, number: u32) -> bool
        requires { number < number_limit }
        ensures { result ≡ contains self.now number }
    {
        has_bit(&self.words, number)
    }

    /// Which of 64 neighbouring numbers are members: a bit for each of those from 64 times `place` on, which is 0 to 1,023.
    #[inline]
    pub fn word(&self, place: u32) -> u64
        requires { place < word_limit }
        ensures { HasBitsOf self.now place result }
    {
        word_at(&self.words, place)
    }

    /// Adds those of 64 neighbouring numbers whose bits are set, from 64 times `place` on, which is 0 to 1,023. None of the 64
    /// is a member yet.
    pub fn put_word(&mut self, place: u32, word: u64)
        requires place { place < word_limit }
        requires none { (number : ℕ) → number / 64 ≡ place
            → contains self.old number ≡ false }
        ensures bits { HasBitsOf self.new place word }
        ensures others { (number : ℕ) → number / 64 ≢ place
            → contains self.new number ≡ contains self.old number }
    {
        if word == 0 {
            return;
        }
        put_word(&mut self.words, place, word);
        set_bit(&mut self.groups, place);
        set_bit(&mut self.top, place / 64);
    }

    /// Adds a number, 0 to 65,535.
    #[inline]
    pub fn insert(&mut self, number: u32)
        requires { number < number_limit }
        ensures { self.new ≡ insert self.old number }
    {
        if set_bit(&mut self.words, number) {
            return;
        }
        if set_bit(&mut self.groups, number / 64) {
            return;
        }
        set_bit(&mut self.top, number / 64 / 64);
    }

    /// Removes a number, 0 to 65,535.
    #[inline]
    pub fn remove(&mut self, number: u32)
        requires { number < number_limit }
        ensures { self.new ≡ remove self.old number }
    {
        if !clear_bit(&mut self.words, number) {
            return;
        }
        if !clear_bit(&mut self.groups, number / 64) {
            return;
        }
        clear_bit(&mut self.top, number / 64 / 64);
    }

    /// The lowest member, `None` where there is none.
    #[inline]
    pub fn lowest(&self) -> Option<u32>
        ensures lowest { result ≡ lowest self.now }
        ensures below { IfSome result (λ number. number < number_limit) }
    {
        if self.top[0] == 0 {
            return None;
        }
        let group = lowest_bit(&self.top, 0);
        let word = lowest_bit(&self.groups, group);
        Some(lowest_bit(&self.words, word))
    }

    /// Whether there are no members.
    #[inline]
    pub fn is_empty(&self) -> bool
        ensures { IsTrue result ↔ (self.now ≡ empty) }
    {
        // kit: of `self.top[0] == 0` it isn't proved, since a word is known to fit 64 bits only in a body that reads it.
        self.lowest().is_none()
    }

    /// Removes all members.
    #[inline]
    pub fn clear(&mut self)
        ensures { self.new ≡ empty }
    {
        if !self.is_empty() {
            self.clear_words();
        }
    }

    // The same, whatever the members are.
    #[inline(never)]
    fn clear_words(&mut self)
        ensures { self.new ≡ empty }
    {
        zero_summed(&mut self.words, &self.groups);
        zero(&mut self.groups);
        self.top = [0];
    }
}
