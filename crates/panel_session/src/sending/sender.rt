//! What a session sends next, with the names of its plant.

ghost use Rattle.std.specs.Prelude.{◌≡◌, ◌≢◌, ◌+◌, ◌≤◌, true, false, [], length, All, IfOk, IfSome};
ghost use Rattle.dle_framing.specs.Numbers.{ack, nak};
ghost use Rattle.swp08_messages.specs.Text.{InRange};
ghost use Rattle.plant_config.specs.IsPlant.{IsPlant};
ghost use Rattle.plant_core.specs.Answer.{IsSayable};
ghost use Rattle.panel_session.specs.NamePagesInside.{AddsNames, BeginsNames, IsFarBehind};
ghost use Rattle.panel_session.specs.OutgoingInside.{emptied};
ghost use Rattle.panel_session.specs.OutgoingKept.{answer_bytes};
ghost use Rattle.panel_session.specs.RoomsInside.{fitting, most_named};
ghost use Rattle.panel_session.specs.SenderKept.{sending};
ghost use Rattle.panel_session.specs.Text.{frames_of, nothing_sent, repeated};
ghost use Rattle.panel_session.specs.Text.{with_control, with_frames};

use crate::sending::name_frames::NAMES_AT_ONCE;
use crate::sending::name_page::NamePage;
use crate::sending::outgoing::Outgoing;
use plant_config::Plant;
use plant_core::{Answer, PlantState};
use plant_names::Names;
use std::alloc::{AllocError, Global};
use std::marker::Model;
use swp08_messages::Message;

// The most bytes of an ACK and the frame of a page: its DATA, their length and the check byte may all be doubled.
const ONE_PAGE: usize = 278;

// A page has ten names or more, so each name takes at most this many bytes of a page's frame.
const ONE_NAME: usize = 28;

// What is sent next, and the names that panels ask for. There is room for an ACK and the pages of all names of a level of the
// plant, or of 1,024 of them, and for the answers of a step: no page of a dump is longer than the messages of as many answers.
// Only `new` takes memory.
#[derive(Drop)]
pub(crate) struct Sender<'p> {
    names: &'p Names,
    outgoing: Outgoing,
    // The most names or answers that are sent at once.
    most: usize,
}

impl<'p> Model for Sender<'p> {
    ghost use Rattle.panel_session.specs.SenderKept.{SenderData, sends_of, HasPageRoom};

    ghost Value = { SenderData };

    ghost view = { λ sender. sends_of sender };

    ghost invariant = { λ sender. HasPageRoom sender };
}

impl<'p> Sender<'p> {
    // Nothing is to be sent or was. The names are those of the plant.
    pub(crate) fn new(
        alloc: Global,
        plant: &Plant,
        names: &'p Names,
    ) -> Result<Sender<'p>, AllocError>
        requires { names.now ≡ plant.now }
        ensures { IfOk result (λ sender. sender
            ≡ record { names = plant.now; output = nothing_sent }) }
    {
        let names_most = count_most(plant).min(usize::from(NAMES_AT_ONCE));
        let most = names_most.max(PlantState::room_of(plant));
        Ok(Sender {
            names,
            outgoing: Outgoing::new(alloc, ONE_PAGE + ONE_NAME * most)?,
            most,
        })
    }

    // Makes it as a new one.
    pub(crate) fn reset(&mut self)
        ensures { self.new ≡ sending nothing_sent self.old }
    {
        self.outgoing.reset();
    }

    // What is to be sent.
    pub(crate) fn as_slice(&self) -> &[u8]
        ensures { result.now ≡ self.now.output.bytes }
    {
        self.outgoing.as_slice()
    }

    // An ACK is to be sent.
    pub(crate) fn ack(&mut self)
        ensures { self.new ≡ sending (with_control ack (emptied self.old.output)) self.old }
    {
        self.outgoing.ack();
    }

    // A NAK is to be sent.
    pub(crate) fn nak(&mut self)
        ensures { self.new ≡ sending (with_control nak (emptied self.old.output)) self.old }
    {
        self.outgoing.nak();
    }

    // The last message frame is to be sent again, if there is one that was sent again fewer than 5 times: whether there is.
    pub(crate) fn repeat(&mut self) -> bool
        ensures output { self.new ≡ sending (repeated (emptied self.old.output)) self.old }
        ensures some { result ≡ true → self.new.output.bytes ≢ [] }
        ensures none { result ≡ false → self.new.output.bytes ≡ [] }
    {
        self.outgoing.repeat()
    }

    // An ACK is to be sent, and the first pages of names that this message asks for. It answers from which page on others are
    // left.
    pub(crate) fn names(&mut self, message: Message) -> Option<NamePage>
        requires { InRange message }
        ensures names { self.new.names ≡ self.old.names }
        ensures begins { BeginsNames self.old.names message
            (with_control ack (emptied self.old.output)) result self.new.output }
    {
        self.outgoing.names(self.names, message)
    }

    // The next pages of names are to be sent, from this one on. It answers from which page on others are left. Of a size that
    // no page has none is sent.
    pub(crate) fn more_names(&mut self, page: NamePage) -> Option<NamePage>
        ensures names { self.new.names ≡ self.old.names }
        ensures adds { page.size ≤ 2
            → AddsNames self.old.names page (emptied self.old.output) result self.new.output }
        ensures far { IfSome result (IsFarBehind page.first) }
    {
        self.outgoing.clear();
        if page.size > 2 {
            return None;
        }
        self.outgoing.add_part(self.names, page)
    }

    // Nothing is to be sent.
    pub(crate) fn clear(&mut self)
        ensures { self.new ≡ sending (emptied self.old.output) self.old }
    {
        self.outgoing.clear();
    }

    // The frames of these answers are to be sent behind a control or nothing, in order, where there is room for them.
    #[inline(always)]
    pub(crate) fn answer_too(&mut self, answers: &[Answer])
        requires sayable { All IsSayable answers.now }
        requires front { length self.old.output.bytes ≤ 2 }
        ensures output { self.new ≡ sending (with_frames
            (frames_of (fitting self.old.names answers.now)) self.old.output) self.old }
        ensures most { length self.new.output.bytes
            ≤ length self.old.output.bytes + answer_bytes (length answers.now) }
    {
        if answers.len() <= self.most {
            self.outgoing.answer_too(answers);
        }
    }
}

// The most names that a level has, of its sources or of its destinations: 64 at least.
fn count_most(plant: &Plant) -> usize
    ensures is { result ≡ most_named plant.now }
    ensures plant { IsPlant plant.now }
{
    let levels = plant.levels().iter();
    levels.fold(64, |most, level| {
        most.max(level.sources as usize)
            .max(level.destinations as usize)
    })
}
