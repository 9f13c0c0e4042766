//! The command `check`.

ghost use Rattle.command_words.specs.Words.{texts};
ghost use Rattle.command_words.specs.Parts.{NoMore};
ghost use Rattle.command_rows.specs.Moment.{moment_of, output_of};
ghost use Rattle.command_rows.specs.Opener.{OpensOn, SaySome};
ghost use Rattle.command_rows.specs.Row.{EndsAlone, RunsOn};
ghost use Rattle.command_rows.specs.StopInside.{number_of, opened_as};
ghost use Rattle.command_check.specs.Check.{CheckEnds, CheckRow, parts};

use crate::text::check_text;
use command_rows::{Status, Stop, open_plant};
use ctl_io::{Files, Sink, write_all};
use plant_config::Plant;
use std::alloc::Global;

/// Says what the plant has that the word behind `check` leads to.
pub fn check<F: Files, K: Sink>(
    alloc: Global,
    words: &[String],
    files: &mut F,
    out: &mut K,
) -> Status
    requires { SaySome parts NoMore (texts words.now) }
    ensures { RunsOn parts NoMore CheckRow (texts words.now)
        (moment_of F.shows K.written K.faults files.old out.old)
        (moment_of F.shows K.written K.faults files.new out.new)
        (number_of result) }
{
    match open(alloc, words, files) {
        Ok(plant) => say(alloc, &plant, out),
        Err(stop) => stop.report(out),
    }
}

// The plant of the word that these words say.
fn open<'a, F: Files>(alloc: Global, words: &'a [String], files: &mut F) -> Result<Plant, Stop<'a>>
    requires { SaySome parts NoMore (texts words.now) }
    ensures { OpensOn parts NoMore (texts words.entry.now)
        (F.shows files.old)
        (F.shows files.new)
        (opened_as (λ plant. (plant, tt)) result) }
{
    let [word] = words else {
        unreachable!();
    };
    open_plant(alloc, word.as_str(), files)
}

// Says what this plant has.
fn say<K: Sink>(alloc: Global, plant: &Plant, out: &mut K) -> Status
    ensures { EndsAlone (CheckEnds plant.now) (output_of K.written K.faults out.old)
        (output_of K.written K.faults out.new) (number_of result) }
{
    let Ok(text) = check_text(alloc, plant) else {
        return Stop::NoMemory.report(out);
    };
    if write_all(out, text.as_bytes()) {
        Status::Done
    } else {
        Status::Output
    }
}
