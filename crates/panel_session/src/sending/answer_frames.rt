//! The frames that are sent for the answers to one request.

ghost use Rattle.std.specs.Prelude.{◌≡◌, ◌≤◌, [], length, drop, All, ◌+◌};
ghost use Rattle.plant_core.specs.Answer.{IsSayable};
ghost use Rattle.plant_core.specs.declared.answer.Answer.TheVariants.{Say, Dumped};
ghost use Rattle.swp08_messages.specs.Text.{InRange};
ghost use Rattle.panel_session.specs.Text.{page_frames, frames_of, with_frames};
ghost use Rattle.panel_session.specs.OutgoingInside.{emptied, Adds};
ghost use Rattle.panel_session.specs.OutgoingKept.{answer_bytes};

use crate::sending::dump_page::DumpPage;
use crate::sending::outgoing::Outgoing;
use plant_core::Answer;
use swp08_messages::Message;

impl Outgoing {
    // The frames of these answers are to be sent, in order. Pages are made once an answer of a dump comes: what is said before
    // it has frames of its own.
    pub(crate) fn answer(&mut self, answers: &[Answer])
        requires sayable { All IsSayable answers.now }
        requires room { answer_bytes (length answers.now) ≤ self.old.room }
        ensures output { self.new.output
            ≡ with_frames (frames_of answers.now) (emptied self.old.output) }
        ensures room { self.new.room ≡ self.old.room }
        ensures most { length self.new.output.bytes ≤ answer_bytes (length answers.now) }
    {
        self.clear();
        self.answer_too(answers);
    }

    // The frames of these answers are to be sent too, in order. Short way: nearly every request has one answer or none.
    #[inline(always)]
    pub(crate) fn answer_too(&mut self, answers: &[Answer])
        requires sayable { All IsSayable answers.now }
        requires room { length self.old.output.bytes + answer_bytes (length answers.now)
            ≤ self.old.room }
        ensures output { self.new.output
            ≡ with_frames (frames_of answers.now) self.old.output }
        ensures room { self.new.room ≡ self.old.room }
        ensures most { length self.new.output.bytes
            ≤ length self.old.output.bytes + answer_bytes (length answers.now) }
    {
        match answers {
            [] => {}
            [Answer::Say(message)] => self.say(message),
            _ => self.add_answers(answers),
        }
    }

    // The same of any answers.
    #[inline(never)]
    fn add_answers(&mut self, answers: &[Answer])
        requires sayable { All IsSayable answers.now }
        requires room { length self.old.output.bytes + answer_bytes (length answers.now)
            ≤ self.old.room }
        ensures output { self.new.output
            ≡ with_frames (frames_of answers.now) self.old.output }
        ensures room { self.new.room ≡ self.old.room }
        ensures most { length self.new.output.bytes
            ≤ length self.old.output.bytes + answer_bytes (length answers.now) }
    {
        let said = self.say_first(answers);
        if said < answers.len() {
            self.add_pages(&answers[said..]);
        }
    }

    // The frames of what is said before all else are to be sent too. It answers how many answers that are.
    fn say_first(&mut self, answers: &[Answer]) -> usize
        requires sayable { All IsSayable answers.now }
        requires room { length self.old.output.bytes + answer_bytes (length answers.now)
            ≤ self.old.room }
        ensures within { result ≤ length answers.now }
        ensures output { with_frames (frames_of (drop result answers.now)) self.new.output
            ≡ with_frames (frames_of answers.now) self.old.output }
        ensures room { self.new.room ≡ self.old.room }
        ensures most { length self.new.output.bytes
            ≤ length self.old.output.bytes + answer_bytes result }
    {
        let mut said = 0;
        while said < answers.len() {
            let Answer::Say(message) = answers[said] else {
                return said;
            };
            self.say(&message);
            said += 1;
        }
        said
    }

    // The frames of these answers are to be sent too, in order, with those of dumps in pages.
    fn add_pages(&mut self, answers: &[Answer])
        requires sayable { All IsSayable answers.now }
        requires room { length self.old.output.bytes + answer_bytes (length answers.now)
            ≤ self.old.room }
        ensures output { self.new.output
            ≡ with_frames (frames_of answers.now) self.old.output }
        ensures room { self.new.room ≡ self.old.room }
        ensures most { length self.new.output.bytes
            ≤ length self.old.output.bytes + answer_bytes (length answers.now) }
    {
        let mut page = DumpPage::new();
        for answer in answers {
            self.add(&mut page, answer);
        }
        self.send_filled(&page);
    }

    // This answer comes behind what the page has, which goes on with it or is sent before it. No lamp is sent to panels.
    fn add(&mut self, page: &mut DumpPage, answer: &Answer)
        requires sayable { IsSayable answer.now }
        requires room { length self.old.output.bytes + answer_bytes (length page.old.sources + 1)
            ≤ self.old.room }
        ensures output { Adds answer.now page.old self.old.output page.new self.new.output }
        ensures room { self.new.room ≡ self.old.room }
        ensures most { length self.new.output.bytes + answer_bytes (length page.new.sources)
            ≤ length self.old.output.bytes + answer_bytes (length page.old.sources + 1) }
    {
        match *answer {
            Answer::Say(message) => self.add_said(page, message),
            Answer::Dumped {
                matrix,
                level,
                dest,
                source,
            } => self.add_dumped(page, matrix, level, dest, source),
            Answer::Lamp { .. } | Answer::Finished => {}
        }
    }

    // This message comes behind the page.
    fn add_said(&mut self, page: &mut DumpPage, message: Message)
        requires in_range { InRange message }
        requires room { length self.old.output.bytes + answer_bytes (length page.old.sources + 1)
            ≤ self.old.room }
        ensures output { Adds (Say message) page.old self.old.output
            page.new self.new.output }
        ensures room { self.new.room ≡ self.old.room }
        ensures most { length self.new.output.bytes + answer_bytes (length page.new.sources)
            ≤ length self.old.output.bytes + answer_bytes (length page.old.sources + 1) }
    {
        self.send_filled(page);
        page.clear();
        self.say(&message);
    }

    // This destination comes behind those of the page, which goes on with it, or is sent, and another begins there.
    fn add_dumped(
        &mut self,
        page: &mut DumpPage,
        matrix: u8,
        level: u8,
        dest: u16,
        source: Option<u16>,
    )
        requires sayable { IsSayable (Dumped matrix level dest source) }
        requires room { length self.old.output.bytes + answer_bytes (length page.old.sources + 1)
            ≤ self.old.room }
        ensures output { Adds (Dumped matrix level dest source) page.old self.old.output
            page.new self.new.output }
        ensures room { self.new.room ≡ self.old.room }
        ensures most { length self.new.output.bytes + answer_bytes (length page.new.sources)
            ≤ length self.old.output.bytes + answer_bytes (length page.old.sources + 1) }
    {
        if page.goes_on(matrix, level, dest) {
            page.push(source);
            return;
        }
        self.send_filled(page);
        page.begin(matrix, level, dest, source);
    }

    // The frame of the page is to be sent too, if it has destinations.
    fn send_filled(&mut self, page: &DumpPage)
        requires room { length self.old.output.bytes + answer_bytes (length page.now.sources)
            ≤ self.old.room }
        ensures output { self.new.output
            ≡ with_frames (page_frames page.now) self.old.output }
        ensures room { self.new.room ≡ self.old.room }
        ensures most { length self.new.output.bytes
            ≤ length self.old.output.bytes + answer_bytes (length page.now.sources) }
    {
        if !page.is_empty() {
            self.send_page(page);
        }
    }
}
