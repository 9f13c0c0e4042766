//! The pages of names that are sent for one message.

ghost use Rattle.std.specs.Prelude.{◌≡◌, ◌+◌, ◌≤◌, IfSome, length};
ghost use Rattle.dle_framing.specs.Numbers.{ack};
ghost use Rattle.swp08_messages.specs.Text.{InRange};
ghost use Rattle.panel_session.specs.Text.{with_control};
ghost use Rattle.panel_session.specs.NamePagesInside.{AddsNames, BeginsNames, IsFarBehind};
ghost use Rattle.panel_session.specs.OutgoingInside.{emptied};
ghost use Rattle.panel_session.specs.OutgoingKept.{most_answer_frame};
ghost use Rattle.panel_session.specs.RoomsInside.{room_to_send};

use crate::sending::name_page::NamePage;
use crate::sending::outgoing::Outgoing;
use plant_names::{Names, Paged};
use swp08_messages::Message;

// The most names of which all pages are sent at once.
pub(crate) const NAMES_AT_ONCE: u16 = 1024;

impl Outgoing {
    // An ACK is to be sent, and the first pages of names that this message asks for. It answers from which page on others are
    // left.
    pub(crate) fn names(&mut self, names: &Names, message: Message) -> Option<NamePage>
        requires in_range { InRange message }
        requires names { room_to_send names.now ≤ self.old.room }
        ensures begins { BeginsNames names.now message
            (with_control ack (emptied self.old.output)) result self.new.output }
        ensures room { self.new.room ≡ self.old.room }
    {
        self.ack();
        match NamePage::asked_by(message) {
            Some(first) => self.add_part(names, first),
            None => None,
        }
    }

    // The pages of names from this one on are to be sent too, but for those that begin 1,024 numbers behind it or more. It
    // answers from which page on these are left.
    pub(crate) fn add_part(&mut self, names: &Names, page: NamePage) -> Option<NamePage>
        requires size { page.size ≤ 2 }
        requires names { room_to_send names.now ≤ self.old.room }
        requires front { length self.old.output.bytes ≤ 2 }
        ensures adds { AddsNames names.now page self.old.output result self.new.output }
        ensures far { IfSome result (IsFarBehind page.first) }
        ensures room { self.new.room ≡ self.old.room }
    {
        let mut left = self.add_names(names, page);
        while let Some(next) = left {
            if next.first - page.first >= NAMES_AT_ONCE {
                return left;
            }
            left = self.add_names(names, next);
        }
        None
    }

    // This page of names is to be sent too, if there is one. It answers the page that is behind it.
    fn add_names(&mut self, names: &Names, page: NamePage) -> Option<NamePage>
        requires size { page.size ≤ 2 }
        requires room { length self.old.output.bytes + most_answer_frame ≤ self.old.room }
        ensures adds { AddsNames names.now page self.old.output result self.new.output }
        ensures most { length self.new.output.bytes
            ≤ length self.old.output.bytes + most_answer_frame }
        ensures room { self.new.room ≡ self.old.room }
    {
        match self.send_names(names, page) {
            Paged::Nothing => None,
            Paged::Last => None,
            Paged::More(first) => Some(page.at(first)),
        }
    }
}
