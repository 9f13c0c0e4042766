//! The session of one panel.

ghost use Rattle.std.specs.Prelude.{◌≡◌, ℕ, ◌<◌, [], length, IfOk};
ghost use Rattle.std.specs.Borrow.{sem};
ghost use Rattle.plant_config.specs.Plant.{PlantData};
ghost use Rattle.plant_core.specs.declared.request.Request.{Request};
ghost use Rattle.plant_core.specs.declared.request.Request.TheVariants.{Leave};
ghost use Rattle.plant_core.specs.Answer.{room_of};
ghost use Rattle.panel_session.specs.SoFar.{Progress, nothing_yet};
ghost use Rattle.panel_session.specs.Reply.{trace_line};

pub(crate) mod asked;
pub(crate) mod counts;
pub(crate) mod cut;
mod engine;
mod giving;
mod moves;
pub(crate) mod phase;
mod requests;

use crate::sending::sender::Sender;
use crate::session::counts::Counts;
use crate::session::phase::Phase;
use dle_framing::Framer;
use history_lock::OutBox;
use plant_config::{PanelNo, Plant};
use plant_core::{Answer, PlantState, Request};
use plant_names::Names;
use std::alloc::{AllocError, Global};
use trace_lines::LineRoom;

/// A session of one panel: what the panel sends is handed in, in whatever pieces it comes, and what it is sent comes out.
/// Between the two a session asks the plant, by its caller. All its memory is taken by `start`.
#[derive(Drop)]
pub struct Session<'p> {
    plant: &'p Plant,
    panel: PanelNo,
    framer: Framer,
    phase: Phase,
    sender: Sender<'p>,
    outbox: OutBox<Answer>,
    // The items so far, and the polls of this turn.
    items: u64,
    polls: u32,
    counts: Counts,
    // What the lines of a trace are written in.
    line: LineRoom,
}

impl<'p> Session<'p> {
    ghost use Rattle.panel_session.specs.Counted.{AreCounts};
    ghost use Rattle.panel_session.specs.Lending.{LendsOutbox, StaysTheSame};
    ghost use Rattle.panel_session.specs.Session.{outbox_of, plant_of};
    ghost use Rattle.panel_session.specs.Session.{StandsFor, Awaits};
    ghost use Rattle.panel_session.specs.Session.{BeginsAnew, BeginsAnewUnanswered};

    /// A session of a panel of the plant, to which nothing was sent. The names are those of the plant. Its room is enough for
    /// the pages of 1,024 names, or of all where a level of this plant has fewer, and for the answers of a step.
    pub fn start(
        alloc: Global,
        plant: &'p Plant,
        names: &'p Names,
        panel: PanelNo,
    ) -> Result<Session<'p>, AllocError>
        requires panel { panel < length plant.now.panels }
        requires names { names.now ≡ plant.now }
        ensures new { IfOk result (λ session. StandsFor plant.now panel session nothing_yet) }
        ensures places { IfOk result (λ session.
            (outbox_of session).places ≡ room_of plant.now) }
    {
        Ok(Session {
            plant,
            panel,
            framer: Framer::new(),
            phase: Phase::Read,
            sender: Sender::new(alloc, plant, names)?,
            outbox: OutBox::new(alloc, PlantState::room_of(plant))?,
            items: 0,
            polls: 0,
            counts: Counts {
                goods: 0,
                bads: 0,
                turns: 0,
            },
            line: LineRoom::new(alloc)?,
        })
    }

    /// Makes it as a new one of the same panel.
    pub fn reset(&mut self)
        ensures stood { BeginsAnew self.old self.new }
        ensures awaited { BeginsAnewUnanswered self.old self.new }
    {
        self.framer.reset();
        self.phase = Phase::Read;
        self.sender.reset();
        self.outbox.clear();
        self.items = 0;
        self.polls = 0;
        self.counts = Counts {
            goods: 0,
            bads: 0,
            turns: 0,
        };
    }

    /// Its panel.
    pub fn panel(&self) -> PanelNo
        ensures stood { (plant : PlantData) (panel : ℕ) (past : Progress)
            → StandsFor plant panel self.now past → result ≡ panel }
        ensures awaited { (plant : PlantData) (panel : ℕ) (past : Progress) (request : Request)
            → Awaits plant panel self.now past request → result ≡ panel }
    {
        self.panel
    }

    // After how many idle reads, one behind the other, it ends.
    pub(crate) fn idle_limit(&self) -> u32
        ensures { result ≡ (plant_of self.now).server.idle_limit }
    {
        self.plant.server().idle_limit
    }

    /// What came since the start or the last reset.
    pub fn counts(&self) -> Counts
        ensures stood { (plant : PlantData) (panel : ℕ) (past : Progress)
            → StandsFor plant panel self.now past → AreCounts past result }
        ensures awaited { (plant : PlantData) (panel : ℕ) (past : Progress) (request : Request)
            → Awaits plant panel self.now past request → AreCounts past result }
    {
        self.counts
    }

    /// Where the answers to what it asks are put.
    pub fn outbox(&mut self) -> &mut OutBox<Answer>
        ensures* lends { sem 𝓛 (LendsOutbox self.entry result) }
        ensures now { result.now ≡ outbox_of self.old }
    {
        &mut self.outbox
    }

    /// The line of a trace, with its LF, of this panel's leave at this position, 0 to 2^62. The session stays as it is.
    pub fn leave_line(&mut self, position: u64) -> &[u8]
        ensures* same { sem 𝓛 (StaysTheSame self.entry) }
        ensures stood { (plant : PlantData) (panel : ℕ) (past : Progress)
            → StandsFor plant panel self.old past
            → result.now ≡ trace_line plant position (Leave panel) [] }
        ensures awaited { (plant : PlantData) (panel : ℕ) (past : Progress) (request : Request)
            → Awaits plant panel self.old past request
            → result.now ≡ trace_line plant position (Leave panel) [] }
    {
        let leave = Request::Leave { panel: self.panel };
        self.line.write(position, leave, b"")
    }
}
