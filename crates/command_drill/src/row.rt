//! The command `drill`.

ghost use Rattle.std.specs.Prelude.{◌≤◌};
ghost use Rattle.plant_config.specs.DrillPlant.{drill_panel_limit};
ghost use Rattle.drill.specs.Drilled.{most_messages};
ghost use Rattle.command_words.specs.Words.{texts};
ghost use Rattle.command_words.specs.Parts.{NoMore};
ghost use Rattle.command_rows.specs.Moment.{Snapshot, output_of};
ghost use Rattle.command_rows.specs.Opener.{SaySome};
ghost use Rattle.command_rows.specs.Row.{EndsAlone, RunsOn};
ghost use Rattle.command_rows.specs.StopInside.{number_of};
ghost use Rattle.command_drill.specs.Drill.{DrillEnds, DrillRow, parts};
ghost use Rattle.command_drill.specs.DrillInside.{TellsEnds};

use crate::asked::{Drill, asked};
use crate::text::drill_lines;
use command_rows::{Status, Stop};
use ctl_io::{Sink, write_all};
use ctl_net::Gate;
use drill::{Drilled, run_drill};
use plant_config::drills_are_plants;
use std::alloc::Global;
use std::sync::Wait;
use std::thread::Threads;
use trace_audit::{Verdict, audit, histories_are_confirmed, traces_have_one_verdict};

/// Works the drill of which the words behind `drill` speak, audits its trace, and says what it came to. No file is asked for.
pub fn drill<R: Threads + Wait + Sync, G: Gate, K: Sink>(
    rt: &R,
    alloc: Global,
    words: &[String],
    gate: &G,
    out: &mut K,
) -> Status
    requires { SaySome parts NoMore (texts words.now) }
    ensures { (files : Snapshot) → RunsOn parts NoMore DrillRow (texts words.now)
        (record { files = files; output = output_of K.written K.faults out.old })
        (record { files = files; output = output_of K.written K.faults out.new })
        (number_of result) }
{
    let drill = asked(words);
    work(rt, alloc, &drill, gate, out)
}

// Works this drill. Nothing is written before its trace is confirmed, which it always is.
fn work<R: Threads + Wait + Sync, G: Gate, K: Sink>(
    rt: &R,
    alloc: Global,
    drill: &Drill,
    gate: &G,
    out: &mut K,
) -> Status
    requires some { 1 ≤ drill.now.panels }
    requires few { drill.now.panels ≤ drill_panel_limit }
    requires messages { drill.now.messages ≤ most_messages }
    ensures { EndsAlone (DrillEnds drill.now) (output_of K.written K.faults out.old)
        (output_of K.written K.faults out.new) (number_of result) }
{
    drills_are_plants();
    histories_are_confirmed();
    traces_have_one_verdict();
    let Ok(drilled) = run_drill(rt, alloc, gate, drill.number, drill.panels, drill.messages) else {
        return Stop::NoMemory.report(out);
    };
    let Ok(verdict) = audit(alloc, &drilled.plant, drilled.trace.as_slice()) else {
        return Stop::NoMemory.report(out);
    };
    match verdict {
        Verdict::Confirmed(_) => tell(alloc, drill.panels, &drilled, out),
        _ => unreachable!(),
    }
}

// Says what a drill came to.
fn tell<K: Sink>(alloc: Global, panels: u32, drilled: &Drilled, out: &mut K) -> Status
    ensures { EndsAlone (TellsEnds panels drilled.now.messages drilled.now.acks
        drilled.now.naks drilled.now.sessions) (output_of K.written K.faults out.old)
        (output_of K.written K.faults out.new) (number_of result) }
{
    let Ok(text) = drill_lines(alloc, panels, drilled) else {
        return Stop::NoMemory.report(out);
    };
    if write_all(out, text.as_bytes()) {
        Status::Done
    } else {
        Status::Output
    }
}
