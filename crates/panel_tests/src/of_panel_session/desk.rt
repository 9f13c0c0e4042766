//! A panel's session that is worked turn by turn.

ghost use Rattle.std.specs.Prelude.{◌≡◌, ◌<◌, ◌≤◌, ◌+◌, ◌^◌, length};
ghost use Rattle.plant_config.specs.IsPlant.{IsPlant};
ghost use Rattle.panel_tests.specs.BetweenTurns.{IsBetween};

use super::board::Board;
use crate::examples::of_panel_session::Given;
use panel_session::Session;
use plant_config::{PanelNo, Plant};
use plant_names::Names;
use std::alloc::{AllocError, Global};
use std::marker::Model;

// The most turns, and the most bytes of a piece: what is read stays far from the most items of a session.
const MOST_TURNS: u64 = 1 << 20;

const LONGEST_PIECE: usize = 1 << 20;

/// A session of a panel between its turns, and how many it had.
#[derive(Drop)]
pub(super) struct Desk<'p> {
    session: Session<'p>,
    turns: u64,
}

impl<'p> Model for Desk<'p> {
    ghost use Rattle.panel_tests.specs.BetweenTurns.{IsBetween};

    ghost Value = { Unit {0} };

    ghost view = { λ desk. tt };

    ghost invariant = { λ desk. IsBetween desk.session desk.turns };
}

impl<'p> Desk<'p> {
    /// A new session of a panel of the plant.
    pub(super) fn new(
        alloc: Global,
        plant: &'p Plant,
        names: &'p Names,
        panel: u32,
    ) -> Result<Desk<'p>, AllocError>
        requires panel { panel < length plant.now.panels }
        requires names { names.now ≡ plant.now }
    {
        is_one(plant);
        let session = Session::start(alloc, plant, names, PanelNo::of(panel))?;
        Ok(Desk { session, turns: 0 })
    }

    /// Makes it as a new one.
    pub(super) fn reset(&mut self) {
        self.session.reset();
        self.turns = 0;
    }

    /// Works a turn over a board. Behind too many turns, or with a piece that is too long, nothing is done.
    pub(super) fn turn(&mut self, board: &mut Board, piece: &[u8], out: &mut Given) {
        if self.turns >= MOST_TURNS || piece.len() > LONGEST_PIECE {
            return;
        }
        work(&mut self.session, self.turns, board, piece, out);
        self.turns += 1;
    }
}

// A plant is one.
fn is_one(plant: &Plant)
    ensures { IsPlant plant.now }
{
    let _ = plant.panels();
}

// Works a turn of a session that had so many.
fn work(session: &mut Session<'_>, turns: u64, board: &mut Board, piece: &[u8], out: &mut Given)
    requires between { IsBetween session.old turns }
    requires turns { turns < 2 ^ 20 }
    requires short { length piece.now ≤ 2 ^ 20 }
    ensures { IsBetween session.new (turns + 1) }
{
    let _ = session.work_turn(board, piece, out);
}
