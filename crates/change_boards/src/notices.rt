//! The notices of all panels.

ghost use Rattle.std.specs.Prelude.{◌≡◌, ◌<◌, ◌↔◌, false, length, All, IsTrue, IsNone, IfOk};
ghost use Rattle.number_tables.specs.Numbers.{word_limit, HasBitsOf};
ghost use Rattle.change_boards.specs.Board.{IsEmpty, dests_of, next};
ghost use Rattle.change_boards.specs.Notices.{board_of, has, has_left, start_boards, with_mark};
ghost use Rattle.change_boards.specs.Notices.{with_removal, with_leave};
ghost use Rattle.change_boards.specs.Words.{HasNone, PutsWord};

use crate::panel_board::PanelBoard;
use crate::sort::Sort;
use plant_config::{DestId, MAX_DESTINATIONS, PanelNo, Plant};
use std::alloc::{AllocError, Global};
use std::marker::Model;

/// What each panel of a plant has yet to hear of, and which panels have left. A contract sees one board a panel.
#[derive(Debug, Drop)]
pub struct Notices {
    boards: Vec<PanelBoard>,
}

impl Model for Notices {
    ghost use Rattle.std.specs.Prelude.{List};
    ghost use Rattle.std.specs.Coded.{coded_list};
    ghost use Rattle.change_boards.specs.Board.{Board, code};

    ghost Value = { List Board };

    ghost coded = { coded_list code };

    ghost view = { λ notices. notices.boards.items };
}

impl Notices {
    /// No notices, for the panels of this plant, none of which has left.
    pub fn new(alloc: Global, plant: &Plant) -> Result<Notices, AllocError>
        ensures { IfOk result (λ notices. notices ≡ start_boards (length plant.now.panels)) }
    {
        let panels = plant.panels();
        let mut boards = Vec::with_capacity(alloc, panels.len())?;
        for _panel in panels {
            boards.push(PanelBoard::new(alloc)?)?;
        }
        Ok(Notices { boards })
    }

    /// Adds a panel the notice that the destination changed. Where the panel has left, nothing changes.
    pub fn mark(&mut self, panel: PanelNo, dest: DestId, sort: Sort)
        requires panel { panel < length self.old }
        requires dest { dest < MAX_DESTINATIONS }
        ensures { self.new ≡ with_mark self.old panel dest sort }
    {
        let board = &mut self.boards[panel.get() as usize];
        board.mark(dest, sort);
    }

    /// Removes a panel's lowest notice: that of the lowest destination, and for one destination the source notice first.
    #[inline(always)]
    pub fn remove_lowest(&mut self, panel: PanelNo) -> Option<(DestId, Sort)>
        requires { panel < length self.old }
        ensures next { result ≡ next (board_of self.old panel) }
        ensures removed { self.new ≡ with_removal self.old panel }
        ensures none { IsNone result ↔ IsEmpty (board_of self.old panel) }
    {
        let board = &mut self.boards[panel.get() as usize];
        board.remove_lowest()
    }

    /// Whether a panel has the notice that the destination changed.
    pub fn has(&self, panel: PanelNo, dest: DestId, sort: Sort) -> bool
        requires panel { panel < length self.now }
        requires dest { dest < MAX_DESTINATIONS }
        ensures { result ≡ has self.now panel dest sort }
    {
        let board = &self.boards[panel.get() as usize];
        board.has(dest, sort)
    }

    /// Of which of 64 neighbouring destinations a panel has this notice: a bit for each of those from 64 times `place` on,
    /// which is 0 to 1,023.
    pub fn word(&self, panel: PanelNo, place: u32, sort: Sort) -> u64
        requires panel { panel < length self.now }
        requires place { place < word_limit }
        ensures { HasBitsOf (dests_of (board_of self.now panel) sort) place result }
    {
        let board = &self.boards[panel.get() as usize];
        board.word(place, sort)
    }

    /// Gives a panel that hasn't left this notice of 64 neighbouring destinations of which it has none yet, from 64 times
    /// `place` on, which is 0 to 1,023: of those whose bits are set.
    pub fn put_word(&mut self, panel: PanelNo, place: u32, sort: Sort, word: u64)
        requires panel { panel < length self.old }
        requires place { place < word_limit }
        requires stays { has_left self.old panel ≡ false }
        requires none { HasNone self.old panel place sort }
        ensures { PutsWord self.old self.new panel place sort word }
    {
        let board = &mut self.boards[panel.get() as usize];
        board.put_word(place, sort, word);
    }

    /// Whether a panel has no notice.
    pub fn is_empty(&self, panel: PanelNo) -> bool
        requires { panel < length self.now }
        ensures { IsTrue result ↔ IsEmpty (board_of self.now panel) }
    {
        let board = &self.boards[panel.get() as usize];
        board.is_empty()
    }

    /// A panel leaves: its notices are removed, and it gets none from now on.
    pub fn drop_panel(&mut self, panel: PanelNo)
        requires { panel < length self.old }
        ensures { self.new ≡ with_leave self.old panel }
    {
        let board = &mut self.boards[panel.get() as usize];
        board.leave();
    }

    /// Whether a panel has left.
    pub fn has_left(&self, panel: PanelNo) -> bool
        requires { panel < length self.now }
        ensures { result ≡ has_left self.now panel }
    {
        self.boards[panel.get() as usize].has_left()
    }

    /// Whether all panels have left.
    pub fn all_left(&self) -> bool
        ensures { IsTrue result ↔ All (λ board. IsTrue board.left) self.now }
    {
        self.boards.iter().all(|board| board.has_left())
    }
}
