//! What a session does for an item, and at the end of a turn.

ghost use Rattle.std.specs.Prelude.{◌≡◌, true, false, Some};
ghost use Rattle.panel_session.specs.AskedInside.{NamesInRange};
ghost use Rattle.panel_session.specs.MovesInside.{took_to, acknowledged, ended_turn};
ghost use Rattle.panel_session.specs.MovesInside.{NamesOn, TakesTo, phase_then};
ghost use Rattle.panel_session.specs.TakenInside.{IsAnswer, IsNoAnswer};

use super::Session;
use crate::sending::name_page::NamePage;
use crate::session::asked::Asked;
use crate::session::phase::Phase;

impl Session<'_> {
    // Does what an item asks, and answers whether something is to be sent.
    pub(super) fn take(&mut self, asked: Asked) -> bool
        requires names { NamesInRange (Some asked) }
        ensures session { self.new ≡ took_to self.new.sender self.new.phase asked self.old }
        ensures to { TakesTo asked self.old self.new.sender self.new.phase }
        ensures some { result ≡ true
            → IsAnswer self.old.sender.names asked self.old.sender.output }
        ensures none { result ≡ false
            → IsNoAnswer self.old.sender.names asked self.old.sender.output }
        ensures quiet { result ≡ false → self.new.phase ≡ self.old.phase }
    {
        self.items = self.items.wrapping_add(1);
        match asked {
            Asked::Nothing => false,
            Asked::Repeat => self.sender.repeat(),
            Asked::Refused => {
                self.counts.bads = self.counts.bads.wrapping_add(1);
                self.sender.nak();
                true
            }
            Asked::Noted => {
                self.acknowledge();
                true
            }
            Asked::Named(message) => {
                self.counts.goods = self.counts.goods.wrapping_add(1);
                let left = self.sender.names(message);
                self.leave(left);
                true
            }
            Asked::Sent(message) => {
                self.acknowledge();
                self.phase = Phase::Tell(message);
                true
            }
        }
    }

    // Makes the pages of names from this one on what is to be sent, as many as go at once.
    #[cold]
    #[inline(never)]
    pub(super) fn name_on(&mut self, page: NamePage)
        ensures { NamesOn page self.old self.new }
    {
        self.phase = Phase::Read;
        let left = self.sender.more_names(page);
        self.leave(left);
    }

    // Where pages of names are left, it sends them next.
    fn leave(&mut self, left: Option<NamePage>)
        ensures { self.new ≡ record self.old { phase = phase_then left self.old.phase } }
    {
        if let Some(page) = left {
            self.phase = Phase::Name(page);
        }
    }

    // A good frame is counted, and its ACK is to be sent.
    pub(super) fn acknowledge(&mut self)
        ensures { self.new ≡ acknowledged self.old }
    {
        self.counts.goods = self.counts.goods.wrapping_add(1);
        self.sender.ack();
    }

    // The turn is over.
    pub(super) fn end_turn(&mut self)
        ensures { self.new ≡ ended_turn self.old }
    {
        self.phase = Phase::Read;
        self.polls = 0;
        self.counts.turns = self.counts.turns.wrapping_add(1);
    }
}
