//! The lines of traces.

ghost use Rattle.std.specs.Prelude.{◌≤◌, length, All};
ghost use Rattle.plant_core.specs.Answer.{IsSayable};
ghost use Rattle.panel_session.specs.MostAnswers.{most_answers};
ghost use Rattle.trace_lines.specs.TraceLine.{trace_limit, MayTrace};
ghost use Rattle.panel_session.specs.Reply.{MayReply};

use panel_session::TraceLines;
use plant_config::{PanelNo, Plant};
use plant_core::{Answer, Request};
use std::alloc::{AllocError, Global};
use std::test::Fail;

// The greatest number of a trace.
const LIMIT: u64 = 1 << 62;

// Whether an entry has this line.
fn has_line(
    alloc: Global,
    plant: &Plant,
    position: u64,
    request: &Request,
    answers: &[Answer],
    wanted: &[u8],
) -> Result<bool, AllocError>
    requires position { position ≤ trace_limit }
    requires request { MayTrace request.now }
    requires sayable { All IsSayable answers.now }
    requires few { length answers.now ≤ most_answers }
    requires reply { MayReply plant.now request.now answers.now }
{
    let mut out = Vec::with_capacity(alloc, 65537)?;
    let mut lines = TraceLines::new(alloc)?;
    lines.append(plant, position, request, answers, &mut out);
    Ok(out.as_slice() == wanted)
}

#[test]
fn requests_have_their_lines(rt: HostRuntime) -> Result<(), Fail> {
    let plant = Plant::bench(rt.alloc())?;
    let poll = Request::Poll {
        panel: PanelNo::of(1),
        at: LIMIT,
        turn: LIMIT - 1,
    };
    let quiet = b"4611686018427387904 poll 1 4611686018427387904 4611686018427387903 = -\n";
    assert!(rt; has_line(rt.alloc(), &plant, LIMIT, &poll, &[], quiet)?);

    let show = Request::DisplayPoll {
        screen: 65534,
        refresh: false,
    };
    let finished = b"3 show 65534 0 = finished\n";
    assert!(rt; has_line(rt.alloc(), &plant, 3, &show, &[Answer::Finished], finished)?);
    Ok(())
}
