//! The command `monitor`.

ghost use Rattle.command_words.specs.Words.{texts};
ghost use Rattle.command_words.specs.Parts.{NoMore};
ghost use Rattle.command_rows.specs.Moment.{moment_of, output_of};
ghost use Rattle.command_rows.specs.Opener.{OpensOn, SaySome};
ghost use Rattle.command_rows.specs.Row.{EndsAlone, RunsOn};
ghost use Rattle.command_rows.specs.StopInside.{number_of, opened_as};
ghost use Rattle.command_monitor.specs.Monitor.{MonitorEnds, MonitorRow, parts};

use command_rows::{Status, Stop, read_whole_file};
use ctl_io::{Files, Sink};
use record_replay::{MonitorFault, monitor_stream};
use std::alloc::Global;

// The most bytes of a recorded stream, 64 MiB.
const MAX_STREAM: usize = 64 << 20;

/// Tells the recorded stream of the name that stands behind `monitor`.
pub fn monitor<F: Files, K: Sink>(
    alloc: Global,
    words: &[String],
    files: &mut F,
    out: &mut K,
) -> Status
    requires { SaySome parts NoMore (texts words.now) }
    ensures { RunsOn parts NoMore MonitorRow (texts words.now)
        (moment_of F.shows K.written K.faults files.old out.old)
        (moment_of F.shows K.written K.faults files.new out.new)
        (number_of result) }
{
    match open(alloc, words, files) {
        Ok(stream) => tell(alloc, &stream, out),
        Err(stop) => stop.report(out),
    }
}

// The recorded stream of the name that these words say.
fn open<'a, F: Files>(
    alloc: Global,
    words: &'a [String],
    files: &mut F,
) -> Result<Vec<u8>, Stop<'a>>
    requires { SaySome parts NoMore (texts words.now) }
    ensures { OpensOn parts NoMore (texts words.entry.now)
        (F.shows files.old)
        (F.shows files.new)
        (opened_as (λ stream. (stream.items, tt)) result) }
{
    let [name] = words else {
        unreachable!();
    };
    read_whole_file(alloc, "stream", MAX_STREAM, name.as_str(), files)
}

// Tells this stream.
fn tell<K: Sink>(alloc: Global, stream: &[u8], out: &mut K) -> Status
    ensures { EndsAlone (MonitorEnds stream.now) (output_of K.written K.faults out.old)
        (output_of K.written K.faults out.new) (number_of result) }
{
    match monitor_stream(alloc, stream, out) {
        Ok(()) => Status::Done,
        Err(MonitorFault::NoMemory) => Stop::NoMemory.report(out),
        Err(MonitorFault::OutputFault) => Status::Output,
    }
}
