//! The command `replay`.

ghost use Rattle.command_words.specs.Words.{texts};
ghost use Rattle.command_words.specs.Parts.{NoMore};
ghost use Rattle.command_rows.specs.Moment.{moment_of, output_of};
ghost use Rattle.command_rows.specs.Opener.{OpensOn, SaySome};
ghost use Rattle.command_rows.specs.Row.{EndsAlone, RunsOn};
ghost use Rattle.command_rows.specs.StopInside.{number_of, opened_as};
ghost use Rattle.command_replay.specs.Replay.{ReplayEnds, ReplayRow, parts};

use command_rows::{Status, Stop, open_plant, read_script, refuse_line};
use ctl_io::{Files, Sink};
use plant_config::Plant;
use plant_names::Names;
use record_replay::{ReplayFault, replay_script};
use std::alloc::Global;

/// Replays the script on the plant, of which the words behind `replay` speak.
pub fn replay<F: Files, K: Sink>(
    alloc: Global,
    words: &[String],
    files: &mut F,
    out: &mut K,
) -> Status
    requires { SaySome parts NoMore (texts words.now) }
    ensures { RunsOn parts NoMore ReplayRow (texts words.now)
        (moment_of F.shows K.written K.faults files.old out.old)
        (moment_of F.shows K.written K.faults files.new out.new)
        (number_of result) }
{
    match open(alloc, words, files) {
        Ok((plant, script)) => work(alloc, &plant, &script, out),
        Err(stop) => stop.report(out),
    }
}

// The plant and the script of which words speak.
fn open<'a, F: Files>(
    alloc: Global,
    words: &'a [String],
    files: &mut F,
) -> Result<(Plant, Vec<u8>), Stop<'a>>
    requires { SaySome parts NoMore (texts words.now) }
    ensures { OpensOn parts NoMore (texts words.entry.now)
        (F.shows files.old)
        (F.shows files.new)
        (opened_as (λ its. (its.0, (its.1.items, tt))) result) }
{
    let [plant, script] = words else {
        unreachable!();
    };
    let plant = match open_plant(alloc, plant.as_str(), files) {
        Ok(plant) => plant,
        Err(stop) => return Err(stop),
    };
    match read_script(alloc, script.as_str(), files) {
        Ok(script) => Ok((plant, script)),
        Err(stop) => Err(stop),
    }
}

// Replays this script on this plant.
fn work<K: Sink>(alloc: Global, plant: &Plant, script: &[u8], out: &mut K) -> Status
    ensures { EndsAlone (ReplayEnds plant.now script.now) (output_of K.written K.faults out.old)
        (output_of K.written K.faults out.new) (number_of result) }
{
    let Ok(names) = Names::new(alloc, plant) else {
        return Stop::NoMemory.report(out);
    };
    match replay_script(alloc, plant, &names, script, out) {
        Ok(()) => Status::Done,
        Err(ReplayFault::NoMemory) => Stop::NoMemory.report(out),
        Err(ReplayFault::BadLine(number)) => refuse_line(number, out),
        Err(ReplayFault::OutputFault) => Status::Output,
    }
}
