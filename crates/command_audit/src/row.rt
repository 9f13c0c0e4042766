//! The command `audit`.

ghost use Rattle.line_text.specs.Lines.{lines};
ghost use Rattle.command_words.specs.Words.{texts};
ghost use Rattle.command_rows.specs.End.{ComesTo};
ghost use Rattle.command_rows.specs.Moment.{moment_of, output_of};
ghost use Rattle.command_rows.specs.Opener.{OpensOn, SaySome};
ghost use Rattle.command_rows.specs.Row.{EndsAlone, RunsOn};
ghost use Rattle.command_rows.specs.StopInside.{number_of, opened_as};
ghost use Rattle.command_audit.specs.Verdict.{audited};
ghost use Rattle.command_audit.specs.Audit.{AuditEnds, AuditRow, last, parts};

use crate::verdict::{status_of, write_verdict};
use command_rows::{Status, Stop, open_plant, read_traces};
use ctl_io::{Files, Sink};
use plant_config::Plant;
use std::alloc::Global;
use trace_audit::Verdict;

/// Audits the traces on the plant, of which the words behind `audit` speak.
pub fn audit<F: Files, K: Sink>(
    alloc: Global,
    words: &[String],
    files: &mut F,
    out: &mut K,
) -> Status
    requires { SaySome parts last (texts words.now) }
    ensures { RunsOn parts last AuditRow (texts words.now)
        (moment_of F.shows K.written K.faults files.old out.old)
        (moment_of F.shows K.written K.faults files.new out.new)
        (number_of result) }
{
    match open(alloc, words, files) {
        Ok((plant, text)) => work(alloc, &plant, &text, out),
        Err(stop) => stop.report(out),
    }
}

// The plant, and the lines of all traces in one text, of which words speak.
fn open<'a, F: Files>(
    alloc: Global,
    words: &'a [String],
    files: &mut F,
) -> Result<(Plant, Vec<u8>), Stop<'a>>
    requires { SaySome parts last (texts words.now) }
    ensures { OpensOn parts last (texts words.entry.now)
        (F.shows files.old)
        (F.shows files.new)
        (opened_as (λ its. (its.0, lines its.1.items)) result) }
{
    let [plant, traces @ ..] = words else {
        unreachable!();
    };
    let plant = match open_plant(alloc, plant.as_str(), files) {
        Ok(plant) => plant,
        Err(stop) => return Err(stop),
    };
    match read_traces(alloc, traces, files) {
        Ok(text) => Ok((plant, text)),
        Err(stop) => Err(stop),
    }
}

// Audits the lines of this text on this plant.
fn work<K: Sink>(alloc: Global, plant: &Plant, text: &[u8], out: &mut K) -> Status
    ensures { EndsAlone (AuditEnds plant.now (lines text.now))
        (output_of K.written K.faults out.old) (output_of K.written K.faults out.new)
        (number_of result) }
{
    match trace_audit::audit(alloc, plant, text) {
        Ok(verdict) => tell(&verdict, out),
        Err(_) => Stop::NoMemory.report(out),
    }
}

// Tells this verdict.
fn tell<K: Sink>(verdict: &Verdict, out: &mut K) -> Status
    ensures { ComesTo (audited verdict.now) (number_of result)
        (output_of K.written K.faults out.old) (output_of K.written K.faults out.new) }
{
    if write_verdict(out, verdict) {
        status_of(verdict)
    } else {
        Status::Output
    }
}
