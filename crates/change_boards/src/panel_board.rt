//! The notices of one panel.

ghost use Rattle.std.specs.Prelude.{◌≡◌, ◌≢◌, ℕ, ◌/◌, ◌<◌, ◌↔◌, false};
ghost use Rattle.std.specs.Prelude.{IsNone, IsTrue, IfOk, IfSome};
ghost use Rattle.change_boards.specs.Board.{IsEmpty, abandoned, blank, has_notice};
ghost use Rattle.change_boards.specs.Board.{dests_of, marked, next, without_next};
ghost use Rattle.number_tables.specs.Numbers.{word_limit, HasBitsOf};

use crate::sort::Sort;
use number_tables::{MAX_NUMBERS, NumberSet};
use plant_config::{DestId, MAX_DESTINATIONS};
use std::alloc::{AllocError, Global};
use std::marker::Model;

// A set has room for all destinations of the largest plant: what is below their limit is below that of the sets.
const _: () = prove!(MAX_DESTINATIONS == MAX_NUMBERS);

/// Of which destinations a panel has yet to hear that they changed, and whether it has left.
#[derive(Debug, Drop)]
pub(crate) struct PanelBoard {
    /// Those whose source changed.
    source: NumberSet,
    /// Those whose owner changed.
    protect: NumberSet,
    /// Whether the panel has left.
    left: bool,
}

impl Model for PanelBoard {
    ghost use Rattle.change_boards.specs.Board.{Board, code};

    ghost Value = { Board };

    ghost coded = { code };

    ghost view = { λ board. record {
      source = board.source;
      protect = board.protect;
      left = board.left;
    } };
}

impl PanelBoard {
    /// The board of a panel that has no notices and hasn't left.
    pub(crate) fn new(alloc: Global) -> Result<PanelBoard, AllocError>
        ensures { IfOk result (λ board. board ≡ blank) }
    {
        let source = NumberSet::new(alloc)?;
        let protect = NumberSet::new(alloc)?;
        Ok(PanelBoard {
            source,
            protect,
            left: false,
        })
    }

    /// Whether the panel has left.
    pub(crate) fn has_left(&self) -> bool
        ensures { result ≡ self.now.left }
    {
        self.left
    }

    /// Whether the panel has this notice.
    pub(crate) fn has(&self, dest: DestId, sort: Sort) -> bool
        requires { dest < MAX_DESTINATIONS }
        ensures { result ≡ has_notice self.now dest sort }
    {
        match sort {
            Sort::Source => self.source.contains(dest.get()),
            Sort::Protect => self.protect.contains(dest.get()),
        }
    }

    /// Of which of 64 neighbouring destinations the panel has this notice.
    pub(crate) fn word(&self, place: u32, sort: Sort) -> u64
        requires { place < word_limit }
        ensures { HasBitsOf (dests_of self.now sort) place result }
    {
        match sort {
            Sort::Source => self.source.word(place),
            Sort::Protect => self.protect.word(place),
        }
    }

    /// Whether the panel has no notice.
    pub(crate) fn is_empty(&self) -> bool
        ensures { IsTrue result ↔ IsEmpty self.now }
    {
        self.source.is_empty() && self.protect.is_empty()
    }

    /// Adds the panel a notice, unless it has left.
    pub(crate) fn mark(&mut self, dest: DestId, sort: Sort)
        requires { dest < MAX_DESTINATIONS }
        ensures { self.new ≡ marked self.old dest sort }
    {
        if self.left {
            return;
        }
        match sort {
            Sort::Source => self.source.insert(dest.get()),
            Sort::Protect => self.protect.insert(dest.get()),
        }
    }

    /// Gives the panel, which hasn't left, this notice of 64 neighbouring destinations of which it has none yet.
    pub(crate) fn put_word(&mut self, place: u32, sort: Sort, word: u64)
        requires place { place < word_limit }
        requires none { (dest : ℕ) → dest / 64 ≡ place
            → has_notice self.old dest sort ≡ false }
        ensures bits { HasBitsOf (dests_of self.new sort) place word }
        ensures others { (dest : ℕ) → dest / 64 ≢ place
            → has_notice self.new dest sort ≡ has_notice self.old dest sort }
        ensures sorts { (other : Sort) → other ≢ sort
            → dests_of self.new other ≡ dests_of self.old other }
        ensures left { self.new.left ≡ self.old.left }
    {
        match sort {
            Sort::Source => self.source.put_word(place, word),
            Sort::Protect => self.protect.put_word(place, word),
        }
    }

    /// The notice that is next.
    #[inline(always)]
    fn next(&self) -> Option<(DestId, Sort)>
        ensures next { result ≡ next self.now }
        ensures below { IfSome result (λ notice. notice.0 < MAX_DESTINATIONS) }
    {
        match (self.source.lowest(), self.protect.lowest()) {
            (None, None) => None,
            (None, Some(protect)) => Some((DestId::of(protect), Sort::Protect)),
            (Some(source), None) => Some((DestId::of(source), Sort::Source)),
            (Some(source), Some(protect)) => {
                if protect < source {
                    Some((DestId::of(protect), Sort::Protect))
                } else {
                    Some((DestId::of(source), Sort::Source))
                }
            }
        }
    }

    /// Removes the notice that is next.
    #[inline(always)]
    pub(crate) fn remove_lowest(&mut self) -> Option<(DestId, Sort)>
        ensures next { result ≡ next self.old }
        ensures removed { self.new ≡ without_next self.old }
        ensures none { IsNone result ↔ IsEmpty self.old }
    {
        let (dest, sort) = self.next()?;
        match sort {
            Sort::Source => self.source.remove(dest.get()),
            Sort::Protect => self.protect.remove(dest.get()),
        }
        Some((dest, sort))
    }

    /// Removes all notices away, and gives none from now on.
    pub(crate) fn leave(&mut self)
        ensures { self.new ≡ abandoned }
    {
        self.source.clear();
        self.protect.clear();
        self.left = true;
    }
}
