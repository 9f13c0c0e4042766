//! A tiny machine of the plant's requests.

ghost use Rattle.std.specs.Prelude.{◌≡◌, ◌≤◌, [], false, length, All};
ghost use Rattle.plant_config.specs.IsPlant.{IsPlant};
ghost use Rattle.plant_core.specs.Answer.{IsSayable};

use crate::examples::of_panel_session::put;
use history_lock::OutBox;
use panel_session::Answerer;
use plant_core::{Answer, Request};
use swp08_messages::{Message, Point};
use trace_lines::LineRoom;

// A level of 32 destinations, and the notices of two panels.
#[derive(Drop)]
pub(super) struct Board {
    sources: [Option<u16>; 32],
    waiting: [[bool; 32]; 2],
    // Whether destination 5 has a notice at each poll.
    pub(super) always: bool,
}

impl Board {
    pub(super) fn new() -> Board {
        Board {
            sources: [None; 32],
            waiting: [[false; 32]; 2],
            always: false,
        }
    }

    pub(super) fn source(&self, at: Point) -> Option<u16> {
        if at.matrix == 0 && at.level == 0 && at.dest < 32 {
            self.sources[at.dest as usize]
        } else {
            None
        }
    }

    pub(super) fn told(&mut self, panel: usize, message: Message) -> Option<Message> {
        match message {
            Message::Connect { at, source } if at.matrix == 0 && at.level == 0 && at.dest < 32 => {
                let dest = at.dest as usize;
                if self.sources[dest] != source {
                    self.sources[dest] = source;
                    self.waiting[1 - panel.min(1)][dest] = true;
                }
                Some(Message::Connected { at, source })
            }
            Message::Interrogate { at } | Message::Connect { at, .. } => Some(self.tally(at)),
            _ => None,
        }
    }

    fn tally(&self, at: Point) -> Message {
        Message::Tally {
            at,
            source: self.source(at),
        }
    }

    pub(super) fn poll(&mut self, panel: usize) -> Option<Message> {
        for dest in 0..32u16 {
            if self.waiting[panel.min(1)][dest as usize] || (self.always && dest == 5) {
                self.waiting[panel.min(1)][dest as usize] = false;
                let at = Point {
                    matrix: 0,
                    level: 0,
                    dest,
                };
                return Some(Message::Connected {
                    at,
                    source: self.source(at),
                });
            }
        }
        None
    }

    pub(super) fn step(&mut self, request: &Request, out: &mut OutBox<Answer>)
        requires empty { out.old.items ≡ [] }
        requires places { 64 ≤ out.old.places }
        ensures sayable { All IsSayable out.new.items }
        ensures most { length out.new.items ≤ 64 }
        ensures places { out.new.places ≡ out.old.places }
    {
        let answer = match *request {
            Request::Told {
                message: Message::DumpAsk { level, .. },
                ..
            } => {
                dump(level, out);
                None
            }
            Request::Told { panel, message, .. } => self.told(panel.get() as usize, message),
            Request::Poll { panel, .. } => self.poll(panel.get() as usize),
            Request::Leave { .. } | Request::DisplayPoll { .. } => None,
        };
        if let Some(message) = answer {
            if message.in_range() && out.items().is_empty() {
                put(Answer::Say(message), out);
            }
        }
    }
}

impl Answerer for Board {
    ghost sent_first = { false };

    ghost IsSame = { λ first last. Unit {0} };

    ghost IsSeat = { λ board seat. Unit {0} };

    ghost Serves = { λ plant board. IsPlant plant };

    ghost Answers = { λ first entries last. Unit {0} };

    ghost Enters = { λ first position entry last. Unit {0} };

    ghost TracesPart = { λ first entry last. ⊥ };

    ghost Refuses = { λ first last. ⊥ };

    fn sent_first(&self) -> bool {
        false
    }

    #[tactic(auto, using(plant_core::proofs::CountLemmas::room_some))]
    fn ask(&mut self, request: &Request, out: &mut OutBox<Answer>) -> Option<u64> {
        self.step(request, out);
        Some(0)
    }

    fn trace(&mut self, _: u64, _: &Request, _: &[u8], _: &mut LineRoom) -> bool {
        true
    }

    ghost same_none = { λ board. tt };

    ghost same_more = { λ first next last one other. tt };

    ghost answers_none = { λ board. tt };

    ghost answers_more = { λ first next last entries more one other. tt };

    ghost seated_on = { λ first last entries seat answers is. tt };

    ghost serves_on = { λ plant first last entries answers serves. serves };

    ghost serves_plant = { λ plant board serves. serves };

    ghost refuses_last = { λ first last refuses. absurd refuses };
}

// The dump of a level whose four destinations are parked.
fn dump(level: u8, out: &mut OutBox<Answer>)
    requires empty { out.old.items ≡ [] }
    requires places { 64 ≤ out.old.places }
    ensures sayable { All IsSayable out.new.items }
    ensures most { length out.new.items ≤ 64 }
    ensures places { out.new.places ≡ out.old.places }
{
    for dest in 0..4 {
        let told = Answer::Dumped {
            matrix: 0,
            level: level % 16,
            dest,
            source: None,
        };
        put(told, out);
    }
}
