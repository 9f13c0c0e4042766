//! What a session gives an outlet in a turn.

ghost use Rattle.std.specs.Prelude.{◌≡◌, ◌≤◌, ℕ, [], ◌∷◌, ◌++◌, false, true, length};
ghost use Rattle.std.specs.Prelude.{All, IfErr, IfSome, List, OnOk};
ghost use Rattle.std.specs.Bool.{OnFalse, OnTrue};
ghost use Rattle.plant_core.specs.Answer.{IsSayable};
ghost use Rattle.panel_session.specs.Answering.{IsOfSession};
ghost use Rattle.panel_session.specs.Engine.{FailsIn};
ghost use Rattle.panel_session.specs.EngineInside.{CutBehind};
ghost use Rattle.panel_session.specs.EngineInside.{bytes_ahead, sent_ahead};
ghost use Rattle.panel_session.specs.Entry.{PlantEntry};
ghost use Rattle.panel_session.specs.MostAnswers.{most_answers};
ghost use Rattle.panel_session.specs.MovesInside.{answered_too, IsReadOrLeft};
ghost use Rattle.panel_session.specs.NamePagesInside.{IsNamePage};
ghost use Rattle.panel_session.specs.NamesLeftInside.{left_at};
ghost use Rattle.panel_session.specs.RoomsInside.{fitting};
ghost use Rattle.panel_session.specs.Session.{made_by};
ghost use Rattle.trace_lines.specs.TraceLine.{MaySpell};
ghost use Rattle.panel_session.specs.WorkInside.{left_bytes, IsSpelled};
ghost use Rattle.panel_session.specs.declared.session.cut.Cut.TheVariants.{Unsent};
ghost use Rattle.panel_session.specs.declared.session.phase.Phase.TheVariants.{Read};

use super::Session;
use crate::engine::answerer::Answerer;
use crate::engine::outlet::Outlet;
use crate::session::cut::Cut;
use crate::session::phase::Phase;
use plant_core::Request;

impl Session<'_> {
    // Where all is sent first, gives what is to be sent. False if that failed.
    #[inline(always)]
    pub(super) fn give_first<A: Answerer, O: Outlet>(&mut self, answerer: &A, out: &mut O) -> bool
        ensures same { O.IsSame out.old out.new }
        ensures session { self.new ≡ sent_ahead A.sent_first self.old }
        ensures given { OnTrue result
            (O.Given out.old (bytes_ahead A.sent_first (made_by self.old)) out.new) }
        ensures failed { OnFalse result (O.Failed out.old (made_by self.old) out.new) }
    {
        if !answerer.sent_first() {
            return true;
        }
        let given = out.give(self.sender.as_slice());
        self.sender.clear();
        given
    }

    // Takes the answers to a request: their frames are spelled behind what is to be sent, its line is traced, and all is given.
    #[inline(always)]
    pub(super) fn send_answers<A: Answerer, O: Outlet>(
        &mut self,
        answerer: &mut A,
        position: u64,
        request: &Request,
        out: &mut O,
    ) -> Result<(), Cut>
        requires sayable { All IsSayable self.old.outbox.items }
        requires front { length (made_by self.old) ≤ 2 }
        requires spelled { MaySpell request.now }
        requires of_session { IsOfSession request.now }
        requires alone { A.sent_first ≡ true → made_by self.old ≡ [] }
        requires few { length self.old.outbox.items ≤ most_answers }
        ensures same { A.IsSame answerer.old answerer.new }
        ensures same_outlet { O.IsSame out.old out.new }
        ensures session { self.new ≡ answered_too self.old.outbox.items self.old }
        ensures traced { OnOk result ((first : A) (entry : PlantEntry)
            → A.Enters first position entry answerer.old → entry.request ≡ request.now
            → entry.answers ≡ fitting self.old.sender.names self.old.outbox.items
            → A.Answers first (entry ∷ []) answerer.new) }
        ensures sent { OnOk result (O.Given out.old (made_by self.new) out.new) }
        ensures cut { IfErr result (λ cut. (first : A) (entry : PlantEntry)
            → A.Enters first position entry answerer.old → entry.request ≡ request.now
            → entry.answers ≡ fitting self.old.sender.names self.old.outbox.items
            → CutBehind A.Answers A.TracesPart O.Failed cut entry (made_by self.new)
            first answerer.new out.old out.new) }
    {
        self.sender.answer_too(self.outbox.items());
        self.outbox.clear();
        let bytes = self.sender.as_slice();
        if !answerer.trace(position, request, bytes, &mut self.line) {
            return Err(Cut::Untraced);
        }
        if bytes.is_empty() {
            return Ok(());
        }
        if out.give(bytes) {
            Ok(())
        } else {
            Err(Cut::Unsent)
        }
    }

    // Gives what is to be sent, and the pages of names that are left, part by part. Behind a part that fails the others are
    // spelled, so that the last frame is known, and not given.
    pub(super) fn send_all<O: Outlet>(&mut self, out: &mut O) -> Result<(), Cut>
        requires left { IsReadOrLeft self.old.phase }
        requires pages { IfSome (left_at self.old.phase) IsNamePage }
        ensures same { O.IsSame out.old out.new }
        ensures session { IsSpelled self.old self.new }
        ensures reads { self.new.phase ≡ Read }
        ensures sent { OnOk result
            (O.Given out.old (made_by self.old ++ left_bytes self.old) out.new) }
        ensures cut { IfErr result (λ cut. (cut ≡ Unsent) × ((given : List ℕ)
            × FailsIn O.Given O.Failed (made_by self.old ++ left_bytes self.old) given
            out.old out.new)) }
    {
        let mut whole = out.give(self.sender.as_slice());
        while let Phase::Name(page) = self.phase {
            self.name_on(page);
            whole = give_if(whole, self.sender.as_slice(), out);
        }
        if whole { Ok(()) } else { Err(Cut::Unsent) }
    }
}

// Gives an outlet these bytes, unless it failed before.
fn give_if<O: Outlet>(whole: bool, bytes: &[u8], out: &mut O) -> bool
    ensures same { O.IsSame out.old out.new }
    ensures given { whole ≡ true → result ≡ true → O.Given out.old bytes.now out.new }
    ensures failed { whole ≡ true → result ≡ false → O.Failed out.old bytes.now out.new }
    ensures behind { whole ≡ false → result ≡ false }
    ensures untouched { whole ≡ false → out.new ≡ out.old }
{
    if whole { out.give(bytes) } else { false }
}
