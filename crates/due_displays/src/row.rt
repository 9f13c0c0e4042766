//! The positions of one screen at which a display is due.

ghost use Rattle.std.specs.Prelude.{◌≡◌, ◌<◌, ◌≤◌, ◌==◌, ◌||◌, ◌&&◌, ℕ, not, true, false};
ghost use Rattle.std.specs.Prelude.{length, IfOk, IfSome};
ghost use Rattle.due_displays.specs.Row.{has_at, row_room, IsLowestOf};

use number_tables::SmallSet;
use std::alloc::{AllocError, Global};
use std::marker::Model;

// How many positions one set has.
const SET_ROOM: usize = 1024;

/// Positions of one screen. A contract sees their sets.
#[derive(Debug, Drop)]
pub(crate) struct Row {
    /// So many positions to a set.
    sets: Vec<SmallSet>,
}

impl Model for Row {
    ghost use Rattle.std.specs.Prelude.{List, ◌^◌, ◌≤◌, length};
    ghost use Rattle.std.specs.FinSet as finite;
    ghost use Rattle.std.specs.Coded.{coded_list, coded_ℕ};
    ghost use Rattle.number_tables.specs.Numbers.{Numbers};

    ghost Value = { List Numbers };

    ghost coded = { coded_list (finite.code coded_ℕ) };

    ghost view = { λ row. row.sets.items };

    ghost invariant = { λ row. length row.sets.items ≤ 2 ^ 54 };
}

impl Row {
    /// No positions, and room for so many.
    pub(crate) fn new(alloc: Global, room: usize) -> Result<Row, AllocError>
        ensures room { IfOk result (λ row. room ≤ row_room row) }
        ensures none { IfOk result (λ row. (position : ℕ) → has_at row position ≡ false) }
    {
        let mut sets = Vec::new(alloc);
        for _set in 0..room.div_ceil(SET_ROOM) {
            sets.push(SmallSet::new())?;
        }
        Ok(Row { sets })
    }

    /// Adds a position.
    pub(crate) fn insert(&mut self, position: usize)
        requires { position < row_room self.old }
        ensures count { length self.new ≡ length self.old }
        ensures each { (other : ℕ)
            → has_at self.new other ≡ ((other == position) || has_at self.old other) }
    {
        let set = &mut self.sets[position / SET_ROOM];
        set.insert((position % SET_ROOM) as u32);
    }

    /// Takes a position away.
    pub(crate) fn remove(&mut self, position: usize)
        requires { position < row_room self.old }
        ensures count { length self.new ≡ length self.old }
        ensures each { (other : ℕ)
            → has_at self.new other ≡ (not (other == position) && has_at self.old other) }
    {
        let set = &mut self.sets[position / SET_ROOM];
        set.remove((position % SET_ROOM) as u32);
    }

    /// The lowest position, `None` where there is none.
    pub(crate) fn lowest(&self) -> Option<usize>
        ensures { IsLowestOf self.now result }
    {
        for number in 0..self.sets.len() {
            if let Some(lowest) = self.sets[number].lowest() {
                return Some(SET_ROOM * number + lowest as usize);
            }
        }
        None
    }
}
