//! Uses of `panel_session`: a turn of a session, over what answers and an outlet; the line of a trace that tells an entry, and that
//! of a leave.

ghost use Rattle.std.specs.Prelude.{◌≡◌, ◌<◌, ◌≤◌, ◌∷◌, ◌++◌, [], false, length};
ghost use Rattle.std.proofs.Common.{ap, sym, ◌∙◌, append_assoc};
ghost use Rattle.std.proofs.lemmas.List.{append-nil};
ghost use Rattle.plant_config.specs.IsPlant.{IsPlant};

use history_lock::OutBox;
use panel_session::{Answerer, Outlet, Session, TraceLines};
use plant_config::{PanelNo, Plant};
use plant_core::{Answer, Request};
use plant_names::Names;
use std::alloc::{AllocError, Global};
use std::test::Fail;
use swp08_messages::{Message, Point};
use trace_lines::LineRoom;

// It says of destination 5 that it is parked whatever it is told, and tells nothing else.
#[derive(Drop)]
struct Parked;

impl Answerer for Parked {
    ghost sent_first = { false };

    ghost IsSame = { λ first last. Unit {0} };

    ghost IsSeat = { λ parked seat. Unit {0} };

    ghost Serves = { λ plant parked. IsPlant plant };

    ghost Answers = { λ first entries last. Unit {0} };

    ghost Enters = { λ first position entry last. Unit {0} };

    ghost TracesPart = { λ first entry last. ⊥ };

    ghost Refuses = { λ first last. ⊥ };

    fn sent_first(&self) -> bool {
        false
    }

    #[tactic(auto, using(plant_core::proofs::CountLemmas::room_some))]
    fn ask(&mut self, request: &Request, out: &mut OutBox<Answer>) -> Option<u64> {
        match request {
            Request::Told { .. } => {
                let at = Point {
                    matrix: 0,
                    level: 0,
                    dest: 5,
                };
                put(Answer::Say(Message::Tally { at, source: None }), out);
                Some(0)
            }
            Request::Poll { .. } | Request::Leave { .. } | Request::DisplayPoll { .. } => Some(0),
        }
    }

    fn trace(&mut self, _: u64, _: &Request, _: &[u8], _: &mut LineRoom) -> bool {
        true
    }

    ghost same_none = { λ parked. tt };

    ghost same_more = { λ first next last one other. tt };

    ghost answers_none = { λ parked. tt };

    ghost answers_more = { λ first next last entries more one other. tt };

    ghost seated_on = { λ first last entries seat answers is. tt };

    ghost serves_on = { λ plant first last entries answers serves. serves };

    ghost serves_plant = { λ plant parked serves. serves };

    ghost refuses_last = { λ first last refuses. absurd refuses };
}

/// It keeps what it is given, and whether some of it was lost for want of memory.
#[derive(Drop)]
pub(crate) struct Given {
    bytes: Vec<u8>,
    lost: bool,
}

impl Given {
    pub(crate) fn new(alloc: Global) -> Given {
        Given {
            bytes: Vec::new(alloc),
            lost: false,
        }
    }

    /// Whether it was given these bytes.
    pub(crate) fn is(&self, bytes: &[u8]) -> bool {
        self.bytes.as_slice() == bytes && !self.lost
    }
}

impl Outlet for Given {
    ghost IsSame = { λ first last. Unit {0} };

    ghost Failed = { λ before bytes after. ⊥ };

    ghost Given = { λ before bytes after. after.lost ≡ false
        → (before.lost ≡ false) × (after.bytes.items ≡ before.bytes.items ++ bytes) };

    ghost given_none = { λ outlet none. (none, sym (append-nil outlet.bytes.items)) };

    ghost given_more = { λ first next last bytes more given later none.
        (let behind = later none in
        let front = given behind.0 in (
          front.0,
          behind.1
              ∙ (ap (λ all. all ++ more) front.1 ∙ append_assoc first.bytes.items bytes more),
        )) };

    fn give(&mut self, bytes: &[u8]) -> bool {
        if self.bytes.extend_from_slice(bytes).is_err() {
            self.lost = true;
        }
        true
    }

    ghost same_none = { λ outlet. tt };

    ghost same_more = { λ first next last one other. tt };
}

// A frame with a wrong check byte, an interrogate, an ACK and a NAK.
const PIECE: &[u8] =
    b"\x10\x02\x01\x00\x00\x05\x04\xF5\x10\x03\x10\x02\x01\x00\x00\x05\x04\xF6\x10\x03\x10\x06\x10\x15";

// NAK, ACK and the tally, and the tally alone again.
const SENT: &[u8] =
    b"\x10\x15\x10\x06\x10\x02\x03\x00\x07\x05\x7F\x05\x6D\x10\x03\x10\x02\x03\x00\x07\x05\x7F\x05\x6D\x10\x03";

// What an outlet is given in the first turn of a session of the plant, and the line of the panel's leave behind it.
fn worked(alloc: Global, plant: &Plant, names: &Names) -> Result<bool, AllocError>
    requires panels { 1 ≤ length plant.now.panels }
    requires names { names.now ≡ plant.now }
    requires plant { IsPlant plant.now }
{
    let mut session = Session::start(alloc, plant, names, PanelNo::of(0))?;
    let mut out = Given::new(alloc);
    let _ = session.work_turn(&mut Parked, PIECE, &mut out);
    Ok(out.is(SENT) && session.leave_line(4) == b"4 leave 0 = -\n".as_slice())
}

// Whether a turn sends what it should.
fn is_worked(alloc: Global, plant: &Plant, names: &Names) -> Result<bool, AllocError>
    requires panels { 1 ≤ length plant.now.panels }
    requires names { names.now ≡ plant.now }
{
    if plant.panels().is_empty() {
        return Ok(false);
    }
    worked(alloc, plant, names)
}

#[test]
fn a_turn_is_worked(rt: HostRuntime) -> Result<(), Fail> {
    let plant = Plant::bench(rt.alloc())?;
    let names = Names::new(rt.alloc(), &plant)?;
    assert!(rt; is_worked(rt.alloc(), &plant, &names)?);
    Ok(())
}

// The line of the entry.
#[test]
fn an_entry_has_its_line(rt: HostRuntime) -> Result<(), Fail> {
    let at = Point {
        matrix: 0,
        level: 0,
        dest: 5,
    };
    let told = Request::Told {
        panel: PanelNo::of(0),
        item: 0,
        message: Message::Interrogate { at },
    };
    let tally = Answer::Say(Message::Tally { at, source: None });
    let mut trace = Vec::with_capacity(rt.alloc(), 65537)?;
    let mut lines = TraceLines::new(rt.alloc())?;
    let plant = Plant::bench(rt.alloc())?;
    lines.append(&plant, 3, &told, &[tally], &mut trace);
    let line = b"3 told 0 0 01000005 = 1002030007057F056D1003\n";
    assert!(rt; trace.as_slice() == line.as_slice());
    Ok(())
}

/// Puts an answer behind the others. The arm of a lamp names the types that a lamp is made of, which a proof of `put` asks for.
pub(crate) fn put(answer: Answer, out: &mut OutBox<Answer>)
    requires { length out.old.items < out.old.places }
    ensures items { out.new.items ≡ out.old.items ++ answer ∷ [] }
    ensures places { out.new.places ≡ out.old.places }
{
    match answer {
        Answer::Lamp { display, value } => out.put(Answer::Lamp { display, value }),
        other => out.put(other),
    }
}
