//! The plant's answers, what stands behind them, and who is told of what, each by a table.

ghost use Rattle.std.specs.Prelude.{◌≡◌, ◌≤◌, IfOk};
ghost use Rattle.plant_core.specs.Answer.{room_of};

mod day;
mod displays;
mod large;
mod long_runs;
mod rows;
mod state_read;
mod state_text;

pub(crate) use displays::STUDIO;
use history_lock::{Machine, OutBox};
use plant_config::{PanelNo, Plant};
use plant_core::{Answer, PlantState, Request};
pub(crate) use rows::WIDEST;
use rows::{BENCH, EXTENDED, KEPT, POOL, PROTECTING, SALVOS, TRUNK, WIDE};
use std::alloc::{AllocError, Global};
use std::process::Abort;
use std::test::Fail;
use swp08_messages::{GoStatus, Message, Point, Validity};

/// What a panel does about a place.
#[derive(Clone, Copy)]
enum Act {
    Asks,
    Connects(Option<u16>),
    /// The same by the extended commands.
    AsksExt,
    ConnectsExt(Option<u16>),
    AsksOwner,
    Protects,
    Lifts,
    /// Stores a source in a group.
    Stores(Option<u16>, u8),
    /// Takes a group, or clears it.
    Takes(u8),
    Clears(u8),
    /// Asks for an entry of a group.
    Reads(u8, u8),
    Dumps,
    IsPolled,
    /// Polls screen 0.
    PollsScreen,
    Leaves,
}

/// How that is answered, by a message of the same place.
#[derive(Clone, Copy)]
enum Reply {
    Nothing,
    Tally(Option<u16>),
    Connected(Option<u16>),
    ExtTally(Option<u16>),
    ExtConnected(Option<u16>),
    Owner(Option<u16>),
    Protected(u16),
    Lifted,
    Stored(Option<u16>, u8),
    Done(GoStatus, u8),
    Entry(Option<u16>, u8, u8, Validity),
}

/// A panel, a place by matrix, level and number, what the panel does, and how it is answered.
type Row = (u32, (u8, u8, u16), Act, Reply);

// What a panel asks of the plant.
fn request_of(panel: u32, at: Point, act: Act) -> Request {
    let panel = PanelNo::of(panel);
    let message = match act {
        Act::IsPolled => {
            return Request::Poll {
                panel,
                at: 7,
                turn: 3,
            };
        }
        Act::PollsScreen => return displays::shows(false),
        Act::Leaves => return Request::Leave { panel },
        Act::Asks => Message::Interrogate { at },
        Act::Connects(source) => Message::Connect { at, source },
        Act::AsksExt => Message::ExtInterrogate { at },
        Act::ConnectsExt(source) => Message::ExtConnect { at, source },
        Act::AsksOwner => Message::ProtectAsk { at },
        Act::Protects => Message::ProtectConnect { at, device: 77 },
        Act::Lifts => Message::ProtectDisconnect { at, device: 77 },
        Act::Stores(source, salvo) => Message::Store { at, source, salvo },
        Act::Takes(salvo) => Message::Go {
            clear: false,
            salvo,
        },
        Act::Clears(salvo) => Message::Go { clear: true, salvo },
        Act::Reads(salvo, index) => Message::EntryAsk { salvo, index },
        Act::Dumps => Message::DumpAsk {
            matrix: at.matrix,
            level: at.level,
        },
    };
    Request::Told {
        panel,
        item: 7,
        message,
    }
}

// The message that answers.
fn message_of(at: Point, reply: Reply) -> Option<Message> {
    Some(match reply {
        Reply::Nothing => return None,
        Reply::Tally(source) => Message::Tally { at, source },
        Reply::Connected(source) => Message::Connected { at, source },
        Reply::ExtTally(source) => Message::ExtTally { at, source },
        Reply::ExtConnected(source) => Message::ExtConnected { at, source },
        Reply::Owner(owner) => Message::ProtectTally {
            at,
            owned: owner.is_some(),
            device: owner.unwrap_or(0),
        },
        Reply::Protected(device) => Message::ProtectConnected {
            at,
            owned: true,
            device,
        },
        Reply::Lifted => Message::ProtectDisconnected {
            at,
            owned: false,
            device: 0,
        },
        Reply::Stored(source, salvo) => Message::Stored { at, source, salvo },
        Reply::Done(status, salvo) => Message::GoDone { status, salvo },
        Reply::Entry(source, salvo, index, validity) => Message::Entry {
            at,
            source,
            salvo,
            index,
            validity,
        },
    })
}

/// A plant's state, and room for the answers of a step.
#[derive(Drop)]
pub(crate) struct Rig {
    pub(crate) state: PlantState,
    out: OutBox<Answer>,
    ghost room: { room_of state.plant ≤ out.places },
}

impl Rig {
    // The start of a plant.
    pub(crate) fn of(alloc: Global, plant: &Plant) -> Result<Rig, AllocError>
        ensures { IfOk result (λ rig. rig.state.plant ≡ plant.now) }
    {
        let out = OutBox::new(alloc, PlantState::room_of(plant))?;
        let state = PlantState::start(alloc, plant)?;
        Ok(Rig { state, out })
    }

    // The start of a text's plant, and of the bench plant where there is no text.
    fn start(alloc: Global, text: Option<&str>) -> Result<Rig, Fail> {
        Ok(Rig::of(alloc, &plant_of(alloc, text)?)?)
    }

    // An event is asked for, in place of what was answered before.
    pub(crate) fn ask(&mut self, rt: &impl Abort, request: &Request)
        ensures { self.new.state.plant ≡ self.old.state.plant }
    {
        assert!(rt; self.state.fits(request));
        self.out.clear();
        self.state.step(request, &mut self.out);
    }

    // The answers.
    fn answers(&self) -> &[Answer] {
        self.out.items()
    }

    // A row is answered so.
    fn is_answered(&mut self, rt: &impl Abort, row: &Row) {
        let (panel, (matrix, level, dest), act, reply) = *row;
        let at = Point {
            matrix,
            level,
            dest,
        };
        self.ask(rt, &request_of(panel, at, act));
        assert!(rt; said(self.answers()) == message_of(at, reply));
    }

    // The rows are answered one after the other.
    fn are_answered(&mut self, rt: &impl Abort, rows: &[Row]) {
        for row in rows {
            self.is_answered(rt, row);
        }
    }

    fn work(&mut self, rt: &impl Abort, work: Work) {
        match work {
            Work::Rows(rows) => self.are_answered(rt, rows),
            Work::Large => large::is_filled_and_dumped(rt, self),
            Work::Displays => displays::are_told_until_finished(rt, self),
            Work::Polls => displays::are_counted(rt, self),
            Work::QuietPolls => displays::are_quiet(rt, self, 500_000),
            Work::Day => day::passes(rt, self, 4_000),
            Work::Turns => long_runs::go_wide(rt, self),
            Work::Flips => long_runs::flip(rt, self),
        }
    }
}

// The message that is the first answer, `None` where that is none.
fn said(answers: &[Answer]) -> Option<Message> {
    match answers.first() {
        Some(Answer::Say(message)) => Some(*message),
        _ => None,
    }
}

// The plant of a text, the bench plant where there is none.
fn plant_of(alloc: Global, text: Option<&str>) -> Result<Plant, Fail> {
    match text {
        Some(text) => Ok(Plant::from_toml(alloc, text.as_bytes())?),
        None => Ok(Plant::bench(alloc)?),
    }
}

/// What is done on a plant from its start on.
#[derive(Clone, Copy)]
enum Work {
    /// Rows are answered one after the other.
    Rows(&'static [Row]),
    /// A group is filled, and a level dumped.
    Large,
    /// Displays are told until all is finished.
    Displays,
    /// Polls tell 70 displays.
    Polls,
    /// A screen of which nothing differs is polled half a million times.
    QuietPolls,
    /// A day on a pool that keeps ties.
    Day,
    /// Rows of the last numbers, and two connects in turn, a hundred thousand times.
    Turns,
    /// A source that all destinations but one carry goes on air and off, fifty thousand times.
    Flips,
}

// The work is done from the start of that plant on.
fn is_worked(rt: &impl Abort, alloc: Global, text: Option<&str>, work: Work) -> Result<(), Fail> {
    Rig::start(alloc, text)?.work(rt, work);
    Ok(())
}

// The plants by their texts, none for the bench plant, and what is answered on each from its start.
const TABLES: [(Option<&str>, &[Row]); 6] = [
    (None, &BENCH),
    (None, &PROTECTING),
    (None, &SALVOS),
    (Some(POOL), &TRUNK),
    (Some(WIDE), &EXTENDED),
    (Some(STUDIO), &KEPT),
];

#[test]
fn tables_are_answered(rt: HostRuntime) -> Result<(), Fail> {
    for (text, rows) in &TABLES {
        is_worked(&rt, rt.alloc(), *text, Work::Rows(rows))?;
    }
    Ok(())
}
