//! The bytes that a session sends next, and the frame that it may send again.

ghost use Rattle.std.specs.Prelude.{◌≡◌, ◌≢◌, ◌<◌, ◌≤◌, true, false, IfOk, IfSome, []};
ghost use Rattle.std.specs.Prelude.{length, ◌+◌};
ghost use Rattle.dle_framing.specs.Numbers.{ack, nak};
ghost use Rattle.swp08_messages.specs.Text.{InRange, text};
ghost use Rattle.dle_framing.specs.Frame.{frame};
ghost use Rattle.swp08_messages.specs.Dump.{page_text};
ghost use Rattle.panel_session.specs.Text.{repeated, nothing_sent};
ghost use Rattle.panel_session.specs.Text.{with_frame, with_control};
ghost use Rattle.panel_session.specs.NamePagesInside.{names_of, data_of, end_of};
ghost use Rattle.plant_names.specs.Pages.{HaveNumbers};
ghost use Rattle.plant_names.specs.declared.paged.Paged.TheVariants.{Nothing};
ghost use Rattle.panel_session.specs.OutgoingInside.{emptied};
ghost use Rattle.panel_session.specs.OutgoingKept.{most_message_frame, most_answer_frame};
ghost use Rattle.panel_session.specs.OutgoingKept.{answer_bytes};

use crate::sending::dump_page::DumpPage;
use crate::sending::name_page::NamePage;
use crate::sending::spell::{spell_frame, spell_names, spell_page};
use crate::sending::{Sending, begin, drop_front};
use dle_framing::encode_frame;
use plant_names::{Names, Paged};
use std::alloc::{AllocError, Global};
use std::marker::Model;
use swp08_messages::Message;

// How often a frame is sent again since it was newly sent.
const MOST_REPEATS: u32 = 5;

// The most bytes of the DATA of a page, which are more than those of a message.
const MAX_PAGE: usize = 134;

// What is sent next, the last message frame, and how often that was sent again, in the room that `new` is asked for. Only
// `new` takes memory. A frame is spelled where it is sent from, and stands there until another is sent, so that it can be
// sent again.
#[derive(Drop)]
pub(crate) struct Outgoing {
    sending: Sending,
    bytes: Vec<u8>,
    // Where the last message frame begins in them: at their end where there is none.
    last_from: usize,
    repeats: u32,
    spelled: Vec<u8>,
}

impl Model for Outgoing {
    ghost use Rattle.panel_session.specs.OutgoingKept.{Buffer, buffer_of, IsKept};

    ghost Value = { Buffer };

    ghost view = { λ outgoing. buffer_of outgoing };

    ghost invariant = { λ outgoing. IsKept outgoing };
}

impl Outgoing {
    // Nothing is to be sent or was. There is room for so many bytes.
    pub(crate) fn new(alloc: Global, room: usize) -> Result<Outgoing, AllocError>
        requires { 2 ≤ room }
        ensures output { IfOk result (λ outgoing. outgoing.output ≡ nothing_sent) }
        ensures room { IfOk result (λ outgoing. room ≤ outgoing.room) }
    {
        Ok(Outgoing {
            sending: Sending::Nothing,
            bytes: Vec::with_capacity(alloc, room)?,
            last_from: 0,
            repeats: 0,
            spelled: Vec::with_capacity(alloc, MAX_PAGE)?,
        })
    }

    // Makes it as a new one.
    pub(crate) fn reset(&mut self)
        ensures output { self.new.output ≡ nothing_sent }
        ensures room { self.new.room ≡ self.old.room }
    {
        self.sending = Sending::Nothing;
        self.bytes.clear();
        self.last_from = 0;
        self.repeats = 0;
    }

    // What is to be sent.
    pub(crate) fn as_slice(&self) -> &[u8]
        ensures { result.now ≡ self.now.output.bytes }
    {
        match self.sending {
            Sending::Nothing => b"",
            Sending::Ack => b"\x10\x06",
            Sending::Nak => b"\x10\x15",
            Sending::Bytes => self.bytes.as_slice(),
        }
    }

    // Nothing is to be sent.
    pub(crate) fn clear(&mut self)
        ensures { self.new ≡ record self.old { output = emptied self.old.output } }
    {
        self.sending = Sending::Nothing;
    }

    // An ACK is to be sent.
    pub(crate) fn ack(&mut self)
        ensures output { self.new.output ≡ with_control ack (emptied self.old.output) }
        ensures room { self.new.room ≡ self.old.room }
    {
        self.sending = Sending::Ack;
    }

    // A NAK is to be sent.
    pub(crate) fn nak(&mut self)
        ensures output { self.new.output ≡ with_control nak (emptied self.old.output) }
        ensures room { self.new.room ≡ self.old.room }
    {
        self.sending = Sending::Nak;
    }

    // The last message frame is to be sent again, if there is one that was sent again fewer than 5 times: whether there is.
    pub(crate) fn repeat(&mut self) -> bool
        ensures output { self.new.output ≡ repeated (emptied self.old.output) }
        ensures room { self.new.room ≡ self.old.room }
        ensures some { result ≡ true → self.new.output.bytes ≢ [] }
        ensures none { result ≡ false → self.new.output.bytes ≡ [] }
    {
        if self.last_from >= self.bytes.len() || self.repeats >= MOST_REPEATS {
            self.clear();
            return false;
        }
        drop_front(&mut self.bytes, self.last_from);
        self.sending = Sending::Bytes;
        self.last_from = 0;
        self.repeats += 1;
        true
    }

    // The frame of this page is to be sent too.
    pub(crate) fn send_page(&mut self, page: &DumpPage)
        requires some { 1 ≤ length page.now.sources }
        requires room { length self.old.output.bytes + answer_bytes (length page.now.sources)
            ≤ self.old.room }
        ensures output { self.new.output
            ≡ with_frame (frame (page_text page.now)) self.old.output }
        ensures room { self.new.room ≡ self.old.room }
        ensures most { length self.new.output.bytes
            ≤ length self.old.output.bytes + answer_bytes (length page.now.sources) }
    {
        let Outgoing {
            sending,
            bytes,
            last_from,
            repeats,
            spelled,
        } = self;
        begin(sending, bytes, last_from, repeats);
        spell_page(page, spelled, bytes);
    }

    // The frame of this message is to be sent too.
    #[inline(always)]
    pub(crate) fn say(&mut self, message: &Message)
        requires in_range { InRange message.now }
        requires room { length self.old.output.bytes + most_message_frame ≤ self.old.room }
        ensures output { self.new.output ≡ with_frame (frame (text message.now)) self.old.output }
        ensures room { self.new.room ≡ self.old.room }
        ensures most { length self.new.output.bytes
            ≤ length self.old.output.bytes + most_message_frame }
    {
        let Outgoing {
            sending,
            bytes,
            last_from,
            repeats,
            spelled,
        } = self;
        begin(sending, bytes, last_from, repeats);
        spell_frame(message, spelled, bytes);
    }

    // The frame of this page of names is to be sent too, if there is such a page. It answers how the page ends.
    pub(crate) fn send_names(&mut self, names: &Names, page: NamePage) -> Paged
        requires size { page.size ≤ 2 }
        requires room { length self.old.output.bytes + most_answer_frame ≤ self.old.room }
        ensures end { result ≡ end_of names.now page }
        ensures numbers { IfSome (names_of names.now page.matrix page.names) HaveNumbers }
        ensures none { result ≡ Nothing → self.new.output ≡ self.old.output }
        ensures sent { result ≢ Nothing
            → self.new.output ≡ with_frame (frame (data_of names.now page)) self.old.output }
        ensures room { self.new.room ≡ self.old.room }
        ensures most { length self.new.output.bytes
            ≤ length self.old.output.bytes + most_answer_frame }
    {
        let Outgoing {
            sending,
            bytes,
            last_from,
            repeats,
            spelled,
        } = self;
        let end = spell_names(page, names, spelled);
        if let Paged::Nothing = end {
            return end;
        }
        begin(sending, bytes, last_from, repeats);
        encode_frame(spelled, bytes);
        end
    }
}
