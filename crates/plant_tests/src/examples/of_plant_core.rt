//! One short use of `plant_core`.

ghost use Rattle.std.specs.Prelude.{◌≤◌};
ghost use Rattle.plant_core.specs.Answer.{room_of};

use history_lock::{Machine, OutBox};
use plant_config::{PanelNo, Plant};
use plant_core::{Answer, PlantState, Request};
use std::alloc::{AllocError, Global};
use std::process::Abort;
use swp08_messages::{Message, Point};

// The plant answers a request so.
fn is_answered(
    rt: &impl Abort,
    state: &mut PlantState,
    out: &mut OutBox<Answer>,
    request: &Request,
    answers: &[Answer],
)
    requires { room_of state.old.plant ≤ out.old.places }
    ensures { room_of state.new.plant ≤ out.new.places }
{
    assert!(rt; state.fits(request));
    out.clear();
    state.step(request, out);
    assert!(rt; out.items() == answers);
}

// Panel 1 connects, and panel 0 hears of it once.
fn is_heard(rt: &impl Abort, alloc: Global, state: &mut PlantState) -> Result<(), AllocError> {
    let mut out = OutBox::new(alloc, state.room())?;
    let at = Point {
        matrix: 0,
        level: 0,
        dest: 5,
    };
    let source = Some(3);
    let made = Message::Connected { at, source };

    let connect = Request::Told {
        panel: PanelNo::of(1),
        item: 0,
        message: Message::Connect { at, source },
    };
    is_answered(rt, state, &mut out, &connect, &[Answer::Say(made)]);

    let poll = Request::Poll {
        panel: PanelNo::of(0),
        at: 0,
        turn: 0,
    };
    is_answered(rt, state, &mut out, &poll, &[Answer::Say(made)]);
    is_answered(rt, state, &mut out, &poll, &[]);
    Ok(())
}

// The start of the bench plant.
fn start(alloc: Global) -> Result<PlantState, AllocError> {
    PlantState::start(alloc, &Plant::bench(alloc)?)
}

#[test]
fn one_panel_connects_and_another_hears_of_it(rt: HostRuntime) -> Result<(), AllocError> {
    let mut state = start(rt.alloc())?;
    is_heard(&rt, rt.alloc(), &mut state)
}
