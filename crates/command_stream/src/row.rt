//! The command `stream`.

ghost use Rattle.std.specs.Prelude.{◌≡◌, ℕ, List};
ghost use Rattle.ctl_io.specs.Faults.{count_after};
ghost use Rattle.ctl_io.specs.Held.{IsNamed};
ghost use Rattle.ctl_io.specs.Sink.{IsUnwritten};
ghost use Rattle.record_replay.specs.Streamed.{stream_failed};
ghost use Rattle.command_words.specs.Words.{texts};
ghost use Rattle.command_words.specs.Parts.{NoMore};
ghost use Rattle.command_rows.specs.MadeFile.{sink_end};
ghost use Rattle.command_rows.specs.Moment.{moment_of, output_of};
ghost use Rattle.command_rows.specs.Opener.{OpensOn, SaySome};
ghost use Rattle.command_rows.specs.Row.{RowEnds, RunsOn};
ghost use Rattle.command_rows.specs.StopInside.{number_of, opened_as};
ghost use Rattle.command_stream.specs.Stream.{StreamEnds, StreamRow, parts};
ghost use Rattle.command_stream.specs.StreamInside.{StreamsTo, TellsStream};

use crate::file_port::FilePort;
use command_rows::{Status, Stop, open_plant, read_script, refuse_line};
use ctl_io::{Files, Made, Sink};
use plant_config::Plant;
use plant_names::Names;
use record_replay::{StreamedFault, replay_script_to};
use std::alloc::Global;
use tsl_stream::{PortRefused, StreamPort};

/// Replays the script on the plant, of which the words behind `stream` speak, with what the displays are told in the file that
/// the last of them names.
pub fn stream<F: Files, K: Sink>(
    alloc: Global,
    words: &[String],
    files: &mut F,
    out: &mut K,
) -> Status
    requires { SaySome parts NoMore (texts words.now) }
    ensures { RunsOn parts NoMore StreamRow (texts words.now)
        (moment_of F.shows K.written K.faults files.old out.old)
        (moment_of F.shows K.written K.faults files.new out.new)
        (number_of result) }
{
    match open(alloc, words, files) {
        Ok((plant, script, made)) => work(alloc, &plant, &script, made, files, out),
        Err(stop) => stop.report(out),
    }
}

// The plant, the script and the name of which words speak.
fn open<'a, F: Files>(
    alloc: Global,
    words: &'a [String],
    files: &mut F,
) -> Result<(Plant, Vec<u8>, &'a str), Stop<'a>>
    requires { SaySome parts NoMore (texts words.now) }
    ensures { OpensOn parts NoMore (texts words.entry.now)
        (F.shows files.old)
        (F.shows files.new)
        (opened_as (λ its. (its.0, (its.1.items, (its.2.now, tt)))) result) }
{
    let [plant, script, made] = words else {
        unreachable!();
    };
    let plant = match open_plant(alloc, plant.as_str(), files) {
        Ok(plant) => plant,
        Err(stop) => return Err(stop),
    };
    match read_script(alloc, script.as_str(), files) {
        Ok(script) => Ok((plant, script, made.as_str())),
        Err(stop) => Err(stop),
    }
}

// Replays this script on this plant with its stream in the file of this name, which is made anew before a line is looked at.
fn work<F: Files, K: Sink>(
    alloc: Global,
    plant: &Plant,
    script: &[u8],
    made: &str,
    files: &mut F,
    out: &mut K,
) -> Status
    ensures { RowEnds (StreamEnds plant.now script.now made.now)
        (moment_of F.shows K.written K.faults files.old out.old)
        (moment_of F.shows K.written K.faults files.new out.new)
        (number_of result) }
{
    let Ok(names) = Names::new(alloc, plant) else {
        return Stop::NoMemory.report(out);
    };
    let sink = match files.sink(made) {
        Made::Here(sink) => sink,
        Made::Failed => return Stop::FileFault(made).report(out),
    };
    let (ended, sink) = stream_to(alloc, plant, &names, script, sink, out);
    files.close_sink(sink);
    tell(ended, made, out)
}

// Replays a script to a port over a new sink, and hands the sink back.
fn stream_to<S: Sink, K: Sink>(
    alloc: Global,
    plant: &Plant,
    names: &Names,
    script: &[u8],
    sink: S,
    out: &mut K,
) -> (Result<(), StreamedFault>, S)
    requires names { names.now ≡ plant.now }
    requires empty { IsUnwritten (S.written sink) }
    requires new { S.faults sink ≡ 0 }
    ensures named { (name : List ℕ) → IsNamed name (S.name sink)
        → IsNamed name (S.name result.1) }
    ensures streams { StreamsTo plant.now script.now result.0
        (sink_end S.name S.written S.faults result.1)
        (K.written out.old) (K.written out.new) }
    ensures count { K.faults out.new ≡ count_after (stream_failed result.0) (K.faults out.old) }
{
    let mut port = match StreamPort::new(alloc, sink) {
        Ok(port) => FilePort { port },
        Err(PortRefused::NoMemory(sink)) => return (Err(StreamedFault::NoMemory), sink),
    };
    let ended = replay_script_to(alloc, plant, names, script, out, &mut port);
    let FilePort { port } = port;
    (ended, port.into_sink())
}

// Tells what came of a replay with its stream in the file of this name.
fn tell<K: Sink>(ended: Result<(), StreamedFault>, made: &str, out: &mut K) -> Status
    ensures { TellsStream made.now ended (output_of K.written K.faults out.old)
        (output_of K.written K.faults out.new) (number_of result) }
{
    match ended {
        Ok(()) => Status::Done,
        Err(StreamedFault::NoMemory) => Stop::NoMemory.report(out),
        Err(StreamedFault::BadLine(number)) => refuse_line(number, out),
        Err(StreamedFault::OutputFault) => Status::Output,
        Err(StreamedFault::PortFault) => Stop::FileFault(made).report(out),
    }
}
