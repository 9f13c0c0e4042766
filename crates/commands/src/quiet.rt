//! The runs that wait for nobody.

ghost use Rattle.command_words.specs.Table.{usage as usage_line};
ghost use Rattle.command_words.specs.Words.{texts};
ghost use Rattle.command_rows.specs.End.{ComesTo, ended};
ghost use Rattle.command_rows.specs.Moment.{moment_of, output_of};
ghost use Rattle.command_rows.specs.StopInside.{number_of};
ghost use Rattle.commands.specs.Rows.{table};
ghost use Rattle.commands.specs.Quiet.{QuietEnds};

use crate::rows::{quiet_command, run_row, usage};
use command_rows::{Status, Stop};
use ctl_io::{Files, Sink, write_all};
use std::alloc::Global;

/// Does what the words ask, and answers the exit status. It waits for nobody.
///
/// The words ask for a quiet command of the table: `check PLANT` says what a plant has, `replay PLANT SCRIPT` replays a script on
/// it, `audit PLANT TRACE..` says whether the lines of 1 to 200 traces together are a history of it, `stream PLANT SCRIPT OUT`
/// replays with a stream in OUT, `monitor FILE` tells one, `format PLANT STORE` makes a store that stands for the start, `keep PLANT
/// STORE SCRIPT` goes on from a store with a script, `standby PLANT TRACE..` says what traces leave of a standby, and `drive NUMBER
/// WANTS` drives a router in memory. PLANT is the name of a plant file, or `bench`. Where one thing is wrong the run ends there, in
/// this order: the words, what they name in its order, the lines of that.
pub fn run_quiet<F: Files, K: Sink>(
    alloc: Global,
    words: &[String],
    files: &mut F,
    out: &mut K,
) -> u8
    ensures { QuietEnds (texts words.now)
        (moment_of F.shows K.written K.faults files.old out.old)
        (moment_of F.shows K.written K.faults files.new out.new)
        result }
{
    run_by_row(alloc, words, files, out).number()
}

// Runs the row of the quiet command that the words ask for.
fn run_by_row<F: Files, K: Sink>(
    alloc: Global,
    words: &[String],
    files: &mut F,
    out: &mut K,
) -> Status
    ensures { QuietEnds (texts words.now)
        (moment_of F.shows K.written K.faults files.old out.old)
        (moment_of F.shows K.written K.faults files.new out.new)
        (number_of result) }
{
    match quiet_command(alloc, words) {
        Ok(Some(asked)) => run_row(alloc, asked.verb, asked.behind, files, out),
        Ok(None) => tell_usage(out),
        Err(_) => Stop::NoMemory.report(out),
    }
}

// Says which forms there are.
fn tell_usage<K: Sink>(out: &mut K) -> Status
    ensures { ComesTo (ended 2 (usage_line table)) (number_of result)
        (output_of K.written K.faults out.old) (output_of K.written K.faults out.new) }
{
    if write_all(out, usage()) {
        Status::Usage
    } else {
        Status::Output
    }
}
