//! A plant and what stands in it, and its step.

ghost use Rattle.std.specs.Prelude.{◌≡◌, ◌<◌, ◌≤◌, [], length, All, Option, IfOk, IfSome};
ghost use Rattle.std.specs.FinMap.{get};
ghost use Rattle.swp08_messages.specs.Text.{InRange, kind_of};
ghost use Rattle.swp08_messages.specs.declared.message.MessageKind.TheVariants as kinds;
ghost use Rattle.plant_config.specs.Plant.{destinations_of};
ghost use Rattle.crosspoint_state.specs.Crosspoints.{source_of};
ghost use Rattle.mixer_effects.specs.Live.{is_live};
ghost use Rattle.tally.specs.Tally.{roots_of};
ghost use Rattle.plant_core.specs.State.{start, standing, Fits, IsValid};
ghost use Rattle.plant_core.specs.Wide.{tells_source};
ghost use Rattle.plant_core.specs.Short.{StaysShort};
ghost use Rattle.plant_core.specs.Step.{step, answered, dest_of};
ghost use Rattle.plant_core.specs.Answer.{IsSayable, IsAnswerCount, room_of};
ghost use Rattle.plant_core.specs.AnswerInside.{AsksOther, SaysAtMost};

use crate::answer::{Answer, put};
use crate::place::place_of;
use crate::request::Request;
use crate::tables::{Indexes, Tables};
use crate::wide::{is_wide, tells_source};
use change_boards::{Notices, Shown};
use crosspoint_state::Crosspoints;
use due_displays::DueDisplays;
use history_lock::OutBox;
use plant_config::{DestId, PanelNo, Plant, SourceId};
use protects::Protects;
use salvo_groups::Groups;
use std::alloc::{AllocError, Global};
use std::marker::Model;
use swp08_messages::{Message, Point};
use tally::Roots;

/// A plant and what stands in it.
#[derive(Debug, Drop)]
pub struct PlantState {
    pub(crate) plant: Plant,
    pub(crate) crosspoints: Crosspoints,
    pub(crate) protects: Protects,
    pub(crate) groups: Groups,
    pub(crate) notices: Notices,
    pub(crate) shown: Shown,
    // Behind pointers: a state is moved and let go in few steps.
    pub(crate) tables: Box<Tables>,
    pub(crate) due: Box<DueDisplays>,
}

impl Model for PlantState {
    ghost use Rattle.std.specs.Coded.{codes};
    ghost use Rattle.crosspoint_state.specs.Crosspoints as points;
    ghost use Rattle.protects.specs.Owners as owned;
    ghost use Rattle.salvo_groups.specs.Groups as salvos;
    ghost use Rattle.change_boards.specs.Board as board;
    ghost use Rattle.change_boards.specs.Shown as displays;
    ghost use Rattle.plant_core.specs.State.{State};
    ghost use Rattle.plant_core.specs.StateInside.{state_of, IsKept};

    ghost Value = { State };

    ghost coded = { Prim.hlevel (
      codes,
      board.code,
      displays.shown_code,
      salvos.code,
      owned.owners_code,
      points.crosspoints_code,
    ) };

    ghost view = { λ state. state_of state.plant state.crosspoints state.protects state.groups
        state.notices state.shown };

    ghost invariant = { λ state. IsKept (state_of state.plant state.crosspoints state.protects
        state.groups state.notices state.shown) state.crosspoints state.protects
        state.tables.value state.due.value };
}

impl PlantState {
    /// The state at the start: every destination is parked and unprotected, every group is empty, nobody has notices or has
    /// left, and no display was shown a value. It keeps a copy of the plant, and has room for all that may stand in it.
    pub fn start(alloc: Global, plant: &Plant) -> Result<PlantState, AllocError>
        ensures { IfOk result (λ state. state ≡ start plant.now) }
    {
        let destinations = plant.destination_count();
        // What has most in it is made last: each part is let go where a later one has no memory.
        let shown = Shown::new(alloc, plant)?;
        let notices = Notices::new(alloc, plant)?;
        let groups = Groups::new(alloc)?;
        let protects = Protects::new(alloc, destinations)?;
        let crosspoints = Crosspoints::new(alloc, plant)?;
        let indexes = Indexes::new(alloc, plant)?;
        let plant = plant.copy(alloc)?;
        Ok(PlantState {
            plant,
            crosspoints,
            protects,
            groups,
            notices,
            shown,
            tables: indexes.tables,
            due: indexes.due,
        })
    }

    /// For how many answers there has to be room in a step of this plant's states.
    pub fn room_of(plant: &Plant) -> usize
        ensures { result ≡ room_of plant.now }
    {
        let levels = plant.levels().iter();
        levels.fold(64, |most, level| {
            if is_wide(level) {
                most
            } else {
                most.max(level.destinations as usize)
            }
        })
    }

    /// The source of a destination, `None` where it is parked.
    pub fn source_at(&self, dest: DestId) -> Option<SourceId>
        ensures source { result ≡ source_of self.now.crosspoints dest }
        ensures valid { IsValid self.now }
    {
        self.crosspoints.source_at(dest)
    }

    /// Whether a destination is live for the air roots, or for the preview roots: it is one of these, or a bus that is on of a
    /// mixer that feeds a live destination.
    pub fn is_live(&self, roots: Roots, dest: DestId) -> bool
        ensures live { result ≡ is_live self.now.plant self.now.crosspoints
            (roots_of self.now.plant roots) dest }
        ensures valid { IsValid self.now }
    {
        self.tables.tallies.at(roots).is_live(dest)
    }

    /// The device that protects a destination, 0 to 1023, `None` where it is unprotected.
    pub fn owner(&self, dest: DestId) -> Option<u16>
        ensures owner { result ≡ get self.now.owners dest }
        ensures valid { IsValid self.now }
    {
        self.protects.owner(dest)
    }

    // The plant.
    pub(crate) fn plant(&self) -> &Plant
        ensures plant { result.now ≡ self.now.plant }
        ensures valid { IsValid self.now }
    {
        &self.plant
    }

    // How many panels the plant has.
    pub(crate) fn panel_count(&self) -> u32
        ensures { result ≡ length self.now.plant.panels }
    {
        self.plant.panels().len() as u32
    }

    // The destination at a place, `None` where the plant has no such place.
    pub(crate) fn dest_of(&self, at: Point) -> Option<DestId>
        ensures dest { result ≡ dest_of self.now at }
        ensures below { IfSome result (λ dest. dest < destinations_of self.now.plant) }
        ensures valid { IsValid self.now }
    {
        self.plant.dest_of(place_of(at))
    }

    // The source that stands at a place, by its number in its level. `None` where the place is parked or isn't in the
    // plant.
    pub(crate) fn standing(&self, at: Point) -> Option<u16>
        ensures source { result ≡ standing self.now at }
        ensures valid { IsValid self.now }
    {
        let dest = self.dest_of(at)?;
        let source = self.source_at(dest)?;
        Some(self.plant.source_number(source))
    }

    // The tally of a place, for an extended command or another.
    #[inline(always)]
    pub(crate) fn tally(&self, extended: bool, at: Point) -> Message
        ensures tally { result ≡ tells_source extended at (standing self.now at) }
        ensures valid { IsValid self.now }
    {
        tells_source(extended, at, self.standing(at))
    }

    /// Nothing is done: what is kept of a state holds.
    // kit: a body that only calls methods doesn't know the invariant, nor does the crate above.
    #[inline(always)]
    pub fn is_kept(&self)
        ensures valid { IsValid self.now }
        ensures short { StaysShort self.now }
    {
        let _plant = &self.plant;
    }

    /// One event: what it does to the state, and its answers, which can be spelled. It takes no memory.
    #[inline(always)]
    #[tactic(auto, using(crate::proofs::CountLemmas::room_some))]
    pub fn step(&mut self, request: &Request, out: &mut OutBox<Answer>)
        requires fits { Fits self.old request.now }
        requires empty { out.old.items ≡ [] }
        requires places { room_of self.old.plant ≤ out.old.places }
        ensures state { self.new ≡ (step self.old request.now).state }
        ensures answers { out.new.items ≡ (step self.old request.now).answers }
        ensures count { IsAnswerCount self.old.plant request.now (length out.new.items) }
        ensures sayable { All IsSayable out.new.items }
        ensures places { out.new.places ≡ out.old.places }
        ensures plant { self.new.plant ≡ self.old.plant }
    {
        self.is_kept();
        match request {
            Request::Told { panel, message, .. } => self.answer(*panel, message, out),
            Request::Poll { panel, .. } => {
                if let Some(answer) = self.poll(*panel) {
                    put(answer, out);
                }
            }
            Request::Leave { panel } => self.leave(*panel),
            Request::DisplayPoll { screen, refresh } => self.poll_display(*screen, *refresh, out),
        }
    }

    // What a message does, and its answers. Most messages interrogate or connect.
    #[tactic(auto, using(crate::proofs::CountLemmas::room_some))]
    #[inline(always)]
    fn answer(&mut self, panel: PanelNo, message: &Message, out: &mut OutBox<Answer>)
        requires asks { kind_of message.now ≡ kinds.Plant }
        requires in_range { InRange message.now }
        requires empty { out.old.items ≡ [] }
        requires places { room_of self.old.plant ≤ out.old.places }
        ensures state { self.new ≡ (answered self.old panel message.now).state }
        ensures answers { out.new.items ≡ (answered self.old panel message.now).answers }
        ensures places { out.new.places ≡ out.old.places }
        ensures valid { IsValid self.old }
    {
        match *message {
            Message::Interrogate { at } => put(Answer::Say(self.tally(false, at)), out),
            Message::Connect { at, source } => {
                put(Answer::Say(self.connect(panel, false, at, source)), out)
            }
            Message::DumpAsk { matrix, level } => self.dump(matrix, level, out),
            other => self.answer_other(panel, other, out),
        }
    }

    // The same of a message of any other kind.
    #[tactic(auto, using(crate::proofs::CountLemmas::room_some))]
    #[inline(never)]
    fn answer_other(&mut self, panel: PanelNo, message: Message, out: &mut OutBox<Answer>)
        requires asks { AsksOther message }
        requires in_range { InRange message }
        requires empty { out.old.items ≡ [] }
        requires places { room_of self.old.plant ≤ out.old.places }
        ensures state { self.new ≡ (answered self.old panel message).state }
        ensures answers { out.new.items ≡ (answered self.old panel message).answers }
        ensures places { out.new.places ≡ out.old.places }
        ensures valid { IsValid self.old }
    {
        if let Some(message) = self.say(panel, message) {
            put(Answer::Say(message), out);
        }
    }

    // What such a message does, and the answer that it has at most.
    fn say(&mut self, panel: PanelNo, message: Message) -> Option<Message>
        requires asks { AsksOther message }
        requires in_range { InRange message }
        ensures state { self.new ≡ (answered self.old panel message).state }
        ensures answer { SaysAtMost (answered self.old panel message) result }
        ensures valid { IsValid self.old }
    {
        match message {
            Message::ExtInterrogate { at } => Some(self.tally(true, at)),
            Message::ExtConnect { at, source } => Some(self.connect(panel, true, at, source)),
            Message::ProtectAsk { at } => Some(self.protect_tally(at)),
            Message::ProtectConnect { at, .. } => Some(self.protect(panel, at)),
            Message::ProtectDisconnect { at, .. } => Some(self.unprotect(panel, at)),
            Message::Store { at, source, salvo } => self.store(at, source, salvo),
            Message::Go { clear, salvo } => Some(Message::GoDone {
                status: self.go(panel, clear, salvo),
                salvo,
            }),
            Message::EntryAsk { salvo, index } => Some(self.entry(salvo, index)),
            _ => unreachable!(),
        }
    }
}
