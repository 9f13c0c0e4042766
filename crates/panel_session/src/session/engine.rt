//! A whole turn of a session: the one engine of replays, of panels on a network and of drills.

ghost use Rattle.std.specs.Prelude.{◌≡◌, ◌≤◌, ◌<◌, ℕ, [], drop, length};
ghost use Rattle.std.specs.Prelude.{IfErr, IfOk, List, OnOk, Some};
ghost use Rattle.swp08_messages.specs.declared.message.Message.{Message};
ghost use Rattle.panel_session.specs.AskedInside.{NamesInRange};
ghost use Rattle.panel_session.specs.Engine.{FailsIn, IsReady, StopsIn, RunsOn};
ghost use Rattle.panel_session.specs.EngineInside.{Ends, GoesOn, IsOnItsWay, StopsOnWay};
ghost use Rattle.panel_session.specs.EngineInside.{StopsTelling, TellsOn, HasDone};
ghost use Rattle.panel_session.specs.EngineInside.{done_bytes};
ghost use Rattle.panel_session.specs.Session.{made_by};
ghost use Rattle.panel_session.specs.declared.session.asked.Asked.TheVariants.{Sent};
ghost use Rattle.panel_session.specs.declared.session.cut.Cut.TheVariants.{Unsent};
ghost use Rattle.panel_session.specs.declared.session.phase.Phase.TheVariants.{Read, Tell};

use super::Session;
use crate::engine::answerer::Answerer;
use crate::engine::outlet::Outlet;
use crate::session::asked::{Asked, next_asked};
use crate::session::cut::Cut;
use crate::session::phase::{Phase, phase_behind};
use plant_core::Request;
use swp08_messages::Message;

impl Session<'_> {
    /// Works one turn of this session with this piece: the answerer answers what the session asks, and the outlet is given what
    /// it sends. An answerer that wants all to be sent first is asked once all was given that there was to say. Each line is
    /// traced before the frames of its answers are given. It takes no memory.
    pub fn work_turn<A: Answerer, O: Outlet>(
        &mut self,
        answerer: &mut A,
        piece: &[u8],
        out: &mut O,
    ) -> Result<(), Cut>
        requires { IsReady A.IsSeat A.Serves self.old answerer.old piece.now }
        ensures same { A.IsSame answerer.old answerer.new }
        ensures same_outlet { O.IsSame out.old out.new }
        ensures turned { OnOk result (RunsOn A.IsSeat A.Serves A.Answers A.sent_first O.Given
            piece.now self.old self.new answerer.old answerer.new out.old out.new) }
        ensures cut { IfErr result (λ cut. StopsIn A.IsSeat A.Serves A.Answers A.TracesPart
            A.Refuses A.sent_first O.Given O.Failed cut piece.now self.old self.new
            answerer.old answerer.new out.old out.new) }
    {
        self.work_items(answerer, piece, out)?;
        self.work_polls(answerer, out)?;
        Ok(())
    }

    // Works the items of a piece.
    #[inline]
    fn work_items<A: Answerer, O: Outlet>(
        &mut self,
        answerer: &mut A,
        piece: &[u8],
        out: &mut O,
    ) -> Result<(), Cut>
        requires way { IsOnItsWay A.IsSeat A.Serves A.Answers A.sent_first
            self.old answerer.old piece.now }
        requires reads { self.old.phase ≡ Read }
        ensures same { A.IsSame answerer.old answerer.new }
        ensures same_outlet { O.IsSame out.old out.new }
        ensures goes_on { OnOk result (GoesOn A.IsSeat A.Serves A.Answers A.sent_first O.Given
            piece.now [] self.old self.new answerer.old answerer.new out.old out.new) }
        ensures cut { IfErr result (λ cut. StopsOnWay A.IsSeat A.Serves A.Answers A.TracesPart
            A.Refuses A.sent_first O.Given O.Failed cut piece.now self.old self.new
            answerer.old answerer.new out.old out.new) }
        ensures reads { OnOk result (self.new.phase ≡ Read) }
    {
        let mut rest = piece;
        while !rest.is_empty() {
            let used = self.work_item(answerer, rest, out)?;
            rest = &rest[used..];
        }
        Ok(())
    }

    // Takes the bytes up to the end of the next item and works what that asks: how many.
    #[inline]
    fn work_item<A: Answerer, O: Outlet>(
        &mut self,
        answerer: &mut A,
        piece: &[u8],
        out: &mut O,
    ) -> Result<usize, Cut>
        requires way { IsOnItsWay A.IsSeat A.Serves A.Answers A.sent_first
            self.old answerer.old piece.now }
        requires reads { self.old.phase ≡ Read }
        ensures within { IfOk result (λ used. used ≤ length piece.now) }
        ensures progress { IfOk result (λ used. 0 < length piece.now → 0 < used) }
        ensures same { A.IsSame answerer.old answerer.new }
        ensures same_outlet { O.IsSame out.old out.new }
        ensures goes_on { IfOk result (λ used. GoesOn A.IsSeat A.Serves A.Answers A.sent_first
            O.Given piece.now (drop used piece.now) self.old self.new
            answerer.old answerer.new out.old out.new) }
        ensures cut { IfErr result (λ cut. StopsOnWay A.IsSeat A.Serves A.Answers A.TracesPart
            A.Refuses A.sent_first O.Given O.Failed cut piece.now self.old self.new
            answerer.old answerer.new out.old out.new) }
        ensures reads { OnOk result (self.new.phase ≡ Read) }
    {
        let (used, asked) = next_asked(&mut self.framer, piece);
        let Some(asked) = asked else {
            return Ok(used);
        };
        let Asked::Sent(message) = asked else {
            self.do_item(asked, out)?;
            return Ok(used);
        };
        self.items = self.items.wrapping_add(1);
        self.acknowledge();
        self.ask_told(answerer, message, out)?;
        Ok(used)
    }

    // Does what an item asks that sends the plant nothing, and gives what is sent for it.
    fn do_item<O: Outlet>(&mut self, asked: Asked, out: &mut O) -> Result<(), Cut>
        requires names { NamesInRange (Some asked) }
        requires other { (message : Message) → asked ≡ Sent message → ⊥ }
        requires reads { self.old.phase ≡ Read }
        ensures same { O.IsSame out.old out.new }
        ensures session { HasDone asked self.old self.new }
        ensures reads { self.new.phase ≡ Read }
        ensures sent { OnOk result (O.Given out.old (done_bytes asked self.old) out.new) }
        ensures cut { IfErr result (λ cut. (cut ≡ Unsent) × ((given : List ℕ)
            × FailsIn O.Given O.Failed (done_bytes asked self.old) given out.old out.new)) }
    {
        if !self.take(asked) {
            return Ok(());
        }
        self.send_all(out)?;
        Ok(())
    }

    // Asks what the last item sends to the plant. Its ACK, which is to be sent, goes before that where all is sent first, and else
    // together with the frames behind it.
    #[inline(always)]
    fn ask_told<A: Answerer, O: Outlet>(
        &mut self,
        answerer: &mut A,
        message: Message,
        out: &mut O,
    ) -> Result<(), Cut>
        requires way { (rest : List ℕ) × IsOnItsWay A.IsSeat A.Serves A.Answers A.sent_first
            (record self.old { phase = Tell message }) answerer.old rest }
        requires reads { self.old.phase ≡ Read }
        requires few { length (made_by self.old) ≤ 2 }
        ensures same { A.IsSame answerer.old answerer.new }
        ensures same_outlet { O.IsSame out.old out.new }
        ensures goes_on { OnOk result (TellsOn A.IsSeat A.Serves A.Answers A.sent_first O.Given
            (record self.old { phase = Tell message }) self.new
            answerer.old answerer.new out.old out.new) }
        ensures cut { IfErr result (λ cut. StopsTelling A.IsSeat A.Serves A.Answers A.TracesPart
            A.Refuses A.sent_first O.Given O.Failed cut
            (record self.old { phase = Tell message }) self.new
            answerer.old answerer.new out.old out.new) }
        ensures reads { OnOk result (self.new.phase ≡ Read) }
    {
        if !self.give_first(answerer, out) {
            self.stop(Phase::Tell(message), self.polls);
            return Err(Cut::Unsent);
        }
        let request = self.telling(message);
        let Some(position) = answerer.ask(&request, &mut self.outbox) else {
            self.stop(Phase::Tell(message), self.polls);
            return Err(Cut::Refused);
        };
        self.send_answers(answerer, position, &request, out)?;
        Ok(())
    }

    // Polls, once the piece is used up, and ends the turn.
    #[inline]
    fn work_polls<A: Answerer, O: Outlet>(
        &mut self,
        answerer: &mut A,
        out: &mut O,
    ) -> Result<(), Cut>
        requires way { IsOnItsWay A.IsSeat A.Serves A.Answers A.sent_first
            self.old answerer.old [] }
        requires reads { self.old.phase ≡ Read }
        ensures same { A.IsSame answerer.old answerer.new }
        ensures same_outlet { O.IsSame out.old out.new }
        ensures ends { OnOk result (Ends A.IsSeat A.Serves A.Answers A.sent_first O.Given
            self.old self.new answerer.old answerer.new out.old out.new) }
        ensures cut { IfErr result (λ cut. StopsOnWay A.IsSeat A.Serves A.Answers A.TracesPart
            A.Refuses A.sent_first O.Given O.Failed cut [] self.old self.new
            answerer.old answerer.new out.old out.new) }
    {
        let mut polls = 0;
        loop {
            let request = self.polling();
            let Some(position) = answerer.ask(&request, &mut self.outbox) else {
                self.stop(Phase::Poll, polls);
                return Err(Cut::Refused);
            };
            polls += 1;
            let phase = phase_behind(self.outbox.items(), polls);
            self.sender.clear();
            if let Err(cut) = self.send_answers(answerer, position, &request, out) {
                self.stop(phase, polls);
                return Err(cut);
            }
            if let Phase::End = phase {
                self.end_turn();
                return Ok(());
            }
        }
    }

    // The turn was cut short behind so many polls, where this came next.
    #[cold]
    fn stop(&mut self, phase: Phase, polls: u32)
        ensures { self.new ≡ record self.old { phase = phase; polls = polls } }
    {
        self.phase = phase;
        self.polls = polls;
    }
}
