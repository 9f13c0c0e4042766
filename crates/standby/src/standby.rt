//! The standby.

ghost use Rattle.std.specs.Prelude.{◌≡◌, ◌<◌, ◌≤◌, ◌+◌, ◌^◌, length, count_by, is_some, IfOk};
ghost use Rattle.plant_core.specs.State.{FitsPlant};
ghost use Rattle.plant_core.specs.Step.{step};
ghost use Rattle.standby.specs.Standby.{start, applies};
ghost use Rattle.standby.specs.StandbyInside.{position_limit, MayCome, MovesOn};
ghost use Rattle.standby.specs.Table.{Takes};
ghost use Rattle.standby.specs.Follows.{StaysBehind};

use crate::replica::Replica;
use crate::same::are_same;
use crate::took::Took;
use crate::window::Window;
use plant_config::Plant;
use plant_core::{PlantState, Request};
use std::alloc::{AllocError, Global};
use std::marker::Model;

/// A plant that follows another one by the requests of its history, each of which comes with its position, if it comes. A
/// contract sees plain data: the state, how many requests are applied, and what is kept of the positions from there on.
#[derive(Drop)]
pub struct Standby {
    replica: Replica,
    window: Window,
    applied: u64,
}

impl Model for Standby {
    ghost use Rattle.std.specs.Coded.{codes};
    ghost use Rattle.crosspoint_state.specs.Crosspoints as points;
    ghost use Rattle.protects.specs.Owners as owned;
    ghost use Rattle.salvo_groups.specs.Groups as salvos;
    ghost use Rattle.change_boards.specs.Board as board;
    ghost use Rattle.change_boards.specs.Shown as displays;
    ghost use Rattle.standby.specs.Standby.{Data};
    ghost use Rattle.standby.specs.StandbyInside.{IsStandby};

    ghost Value = { Data };

    ghost coded = { Prim.hlevel (
      codes,
      board.code,
      displays.shown_code,
      salvos.code,
      owned.owners_code,
      points.crosspoints_code,
    ) };

    ghost view = { λ standby. record {
      state = standby.replica.state;
      applied = standby.applied;
      window = standby.window;
    } };

    ghost invariant = { λ standby. IsStandby (record {
      state = standby.replica.state;
      applied = standby.applied;
      window = standby.window;
    }) };
}

impl Standby {
    /// A standby of a plant at its start. Its window has 1 to 65,536 places: of how many positions, from the first one that
    /// isn't applied on, a request is kept. It takes all the memory that it ever needs.
    pub fn start(alloc: Global, plant: &Plant, window: u32) -> Result<Standby, AllocError>
        requires some { 1 ≤ window }
        requires most { window ≤ 65536 }
        ensures { IfOk result (λ standby. standby ≡ start plant.now window) }
    {
        let window = Window::new(alloc, window)?;
        Ok(Standby {
            replica: Replica::start(alloc, plant)?,
            window,
            applied: 0,
        })
    }

    /// A request of the history came, under its position. Where it is the one that was missing it is stepped, and those that
    /// were kept in a row behind it. It takes no memory.
    pub fn take(&mut self, position: u64, request: &Request) -> Took
        requires below { position < 2 ^ 62 }
        requires fits { FitsPlant self.old.state.plant request.now }
        ensures takes { Takes self.old position request.now result self.new }
        ensures follows { StaysBehind self.old position request.now result self.new }
        ensures plant { self.new.state.plant ≡ self.old.state.plant }
    {
        self.answer(position, request)
    }

    // What is answered to a request, and becomes of the standby, by the first row that fits.
    fn answer(&mut self, position: u64, request: &Request) -> Took
        requires { MayCome self.old.state.plant position request.now }
        ensures takes { Takes self.old position request.now result self.new }
        ensures plant { self.new.state.plant ≡ self.old.state.plant }
    {
        if position < self.applied {
            return Took::Old;
        }
        let limit = self.applied + self.window.places();
        if limit <= position {
            return Took::Beyond(limit);
        }
        if self.applied < position {
            return self.keep(position - self.applied, request);
        }
        self.apply(request);
        Took::Applied(self.applied)
    }

    // A request came for a position of the window behind the first.
    fn keep(&mut self, offset: u64, request: &Request) -> Took
        requires ahead { 0 < offset }
        requires within { offset < length self.old.window }
        requires may { MayCome self.old.state.plant (self.old.applied + offset) request.now }
        ensures takes { Takes self.old (self.old.applied + offset) request.now result self.new }
        ensures plant { self.new.state.plant ≡ self.old.state.plant }
    {
        let Some(kept) = self.window.at(offset) else {
            self.window.keep(offset, request);
            return Took::Kept;
        };
        if are_same(kept, request) {
            Took::Kept
        } else {
            Took::Differs
        }
    }

    // The request that was missing came.
    fn apply(&mut self, request: &Request)
        requires { MayCome self.old.state.plant self.old.applied request.now }
        ensures standby { self.new ≡ applies self.old request.now }
        ensures plant { self.new.state.plant ≡ self.old.state.plant }
    {
        let mut next = Some(*request);
        while let Some(asked) = next {
            self.step(&asked);
            next = self.move_on();
        }
    }

    // Steps a request.
    fn step(&mut self, request: &Request)
        requires { FitsPlant self.old.state.plant request.now }
        ensures standby { self.new
            ≡ record self.old { state = (step self.old.state request.now).state } }
        ensures plant { self.new.state.plant ≡ self.old.state.plant }
    {
        self.replica.step(request);
    }

    // The request at the first position that wasn't applied was stepped. What is kept for the next one is to be stepped now.
    fn move_on(&mut self) -> Option<Request>
        requires { self.old.applied < position_limit }
        ensures { MovesOn self.old result self.new }
    {
        self.applied += 1;
        self.window.move_on()
    }

    /// How many requests of the history are applied: all those below this position.
    pub fn applied(&self) -> u64
        ensures { result ≡ self.now.applied }
    {
        self.applied
    }

    /// How many requests are kept until those before them have come.
    pub fn kept(&self) -> u64
        ensures { result ≡ count_by is_some self.now.window }
    {
        self.window.kept()
    }

    /// The state that the applied requests left.
    pub fn state(&self) -> &PlantState
        ensures { result.now ≡ self.now.state }
    {
        &self.replica.state
    }

    /// The same by itself, to go on with in place of the controller that was followed. What is kept is let go.
    pub fn takeover(self) -> PlantState
        ensures { result ≡ self.state }
    {
        self.replica.state
    }
}
