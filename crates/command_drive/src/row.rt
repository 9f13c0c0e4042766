//! The command `drive`.

ghost use Rattle.std.specs.Prelude.{◌≤◌};
ghost use Rattle.command_words.specs.Words.{texts};
ghost use Rattle.command_words.specs.Parts.{NoMore};
ghost use Rattle.command_rows.specs.Moment.{Snapshot, output_of};
ghost use Rattle.command_rows.specs.Opener.{SaySome};
ghost use Rattle.command_rows.specs.Row.{EndsAlone, RunsOn};
ghost use Rattle.command_rows.specs.StopInside.{number_of};
ghost use Rattle.command_drive.specs.DriveRow.{DriveEnds, DriveRow, parts};
ghost use Rattle.command_drive.specs.DriveInside.{TellsEnds};

use crate::asked::{Asked, asked_by};
use crate::bench::Bench;
use crate::laws::drives_are_runs;
use crate::text::{Counts, drive_lines};
use command_rows::{Status, Stop};
use ctl_io::{Sink, write_all};
use matrix_driver::settled_is_had;
use std::alloc::Global;

/// Makes the drive of which the words behind `drive` speak, and says what it came to. No file is asked for.
pub fn drive<K: Sink>(alloc: Global, words: &[String], out: &mut K) -> Status
    requires { SaySome parts NoMore (texts words.now) }
    ensures { (files : Snapshot) → RunsOn parts NoMore DriveRow (texts words.now)
        (record { files = files; output = output_of K.written K.faults out.old })
        (record { files = files; output = output_of K.written K.faults out.new })
        (number_of result) }
{
    let asked = asked_by(words);
    work(alloc, &asked, out)
}

// Makes this drive.
fn work<K: Sink>(alloc: Global, asked: &Asked, out: &mut K) -> Status
    requires number { asked.now.number ≤ 4294967295 }
    requires wants { asked.now.wants ≤ 100000 }
    ensures { EndsAlone (DriveEnds asked.now.number asked.now.wants)
        (output_of K.written K.faults out.old) (output_of K.written K.faults out.new)
        (number_of result) }
{
    drives_are_runs();
    settled_is_had();
    let Ok(mut bench) = Bench::new(alloc) else {
        return Stop::NoMemory.report(out);
    };
    bench.want_all(asked.number, asked.wants);
    bench.turn_all();
    let counts = Counts {
        wants: asked.wants,
        sent: bench.sent(),
        settled: bench.settled_count(),
        agree: bench.agree_count(),
    };
    tell(alloc, &counts, out)
}

// Says what a drive came to.
fn tell<K: Sink>(alloc: Global, counts: &Counts, out: &mut K) -> Status
    ensures { EndsAlone (TellsEnds counts.now) (output_of K.written K.faults out.old)
        (output_of K.written K.faults out.new) (number_of result) }
{
    let Ok(text) = drive_lines(alloc, counts) else {
        return Stop::NoMemory.report(out);
    };
    if write_all(out, text.as_bytes()) {
        Status::Done
    } else {
        Status::Output
    }
}
