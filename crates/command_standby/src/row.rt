//! The command `standby`.

ghost use Rattle.std.specs.Prelude.{◌≡◌};
ghost use Rattle.line_text.specs.Lines.{lines};
ghost use Rattle.command_words.specs.Words.{texts};
ghost use Rattle.command_rows.specs.End.{ComesTo, ended};
ghost use Rattle.command_rows.specs.Moment.{moment_of, output_of};
ghost use Rattle.command_rows.specs.Opener.{OpensOn, SaySome};
ghost use Rattle.command_rows.specs.Row.{EndsAlone, RunsOn};
ghost use Rattle.command_rows.specs.StopInside.{number_of, opened_as};
ghost use Rattle.command_standby.specs.Standby.{StandbyEnds, StandbyRow, last, parts};
ghost use Rattle.command_standby.specs.Standby.{standby_differs_at, trace_line_refused};
ghost use Rattle.command_standby.specs.FollowInside.{Stands};

use crate::follow::{Passed, take_lines};
use crate::text::standing_text;
use command_rows::{Status, Stop, open_plant, read_traces, write_number};
use ctl_io::{Files, Sink, write_all};
use plant_config::Plant;
use standby::Standby;
use std::alloc::Global;

// How many places the standby's window has.
const PLACES: u32 = 65_536;

/// Says what the traces leave of a standby of the plant, of which the words behind `standby` speak.
pub fn standby<F: Files, K: Sink>(
    alloc: Global,
    words: &[String],
    files: &mut F,
    out: &mut K,
) -> Status
    requires { SaySome parts last (texts words.now) }
    ensures { RunsOn parts last StandbyRow (texts words.now)
        (moment_of F.shows K.written K.faults files.old out.old)
        (moment_of F.shows K.written K.faults files.new out.new)
        (number_of result) }
{
    match open(alloc, words, files) {
        Ok((plant, text)) => work(alloc, &plant, &text, out),
        Err(stop) => stop.report(out),
    }
}

// The plant, and the lines of all traces in one text, of which words speak.
fn open<'a, F: Files>(
    alloc: Global,
    words: &'a [String],
    files: &mut F,
) -> Result<(Plant, Vec<u8>), Stop<'a>>
    requires { SaySome parts last (texts words.now) }
    ensures { OpensOn parts last (texts words.entry.now)
        (F.shows files.old)
        (F.shows files.new)
        (opened_as (λ its. (its.0, lines its.1.items)) result) }
{
    let [plant, traces @ ..] = words else {
        unreachable!();
    };
    let plant = match open_plant(alloc, plant.as_str(), files) {
        Ok(plant) => plant,
        Err(stop) => return Err(stop),
    };
    match read_traces(alloc, traces, files) {
        Ok(text) => Ok((plant, text)),
        Err(stop) => Err(stop),
    }
}

// The lines of this text come to a new standby of this plant.
fn work<K: Sink>(alloc: Global, plant: &Plant, text: &[u8], out: &mut K) -> Status
    ensures { EndsAlone (StandbyEnds plant.now (lines text.now))
        (output_of K.written K.faults out.old) (output_of K.written K.faults out.new)
        (number_of result) }
{
    let Ok(mut standby) = Standby::start(alloc, plant, PLACES) else {
        return Stop::NoMemory.report(out);
    };
    let mut passed = Passed {
        old_count: 0,
        beyond_count: 0,
    };
    match take_lines(plant, text, &mut standby, &mut passed) {
        Err(number) => refuse_line(number, out),
        Ok(Some(position)) => tell_difference(position, out),
        Ok(None) => tell_standing(alloc, plant, &standby, &passed, out),
    }
}

// Says that the line of this number tells nothing that may come.
fn refuse_line<K: Sink>(number: u64, out: &mut K) -> Status
    ensures { ComesTo (ended 5 (trace_line_refused number)) (number_of result)
        (output_of K.written K.faults out.old) (output_of K.written K.faults out.new) }
{
    if write_number(out, b"trace line ", number, b" refused\n") {
        Status::Refused
    } else {
        Status::Output
    }
}

// Says that another request is kept for this position.
fn tell_difference<K: Sink>(position: u64, out: &mut K) -> Status
    ensures { ComesTo (ended 6 (standby_differs_at position)) (number_of result)
        (output_of K.written K.faults out.old) (output_of K.written K.faults out.new) }
{
    if write_number(out, b"standby differs at ", position, b"\n") {
        Status::Finding
    } else {
        Status::Output
    }
}

// Says where a standby stands.
fn tell_standing<K: Sink>(
    alloc: Global,
    plant: &Plant,
    standby: &Standby,
    passed: &Passed,
    out: &mut K,
) -> Status
    requires { standby.now.state.plant ≡ plant.now }
    ensures { EndsAlone (Stands standby.now passed.now) (output_of K.written K.faults out.old)
        (output_of K.written K.faults out.new) (number_of result) }
{
    let Ok(text) = standing_text(alloc, plant, standby, passed) else {
        return Stop::NoMemory.report(out);
    };
    if write_all(out, text.as_bytes()) {
        Status::Done
    } else {
        Status::Output
    }
}
