//! What is told of a plant that was to be served.

ghost use Rattle.std.specs.Prelude.{◌≡◌, Ok, not};
ghost use Rattle.std.specs.Bool.{OnTrue, OnFalse};
ghost use Rattle.ctl_io.specs.Faults.{count_after};
ghost use Rattle.ctl_io.specs.Sink.{appended, AppendsPart};
ghost use Rattle.command_words.specs.Words.{texts};
ghost use Rattle.command_rows.specs.End.{ComesTo, ended};
ghost use Rattle.command_rows.specs.Moment.{output_of};
ghost use Rattle.command_rows.specs.StopInside.{number_of};
ghost use Rattle.command_serve.specs.Serve.{answered_end, limits_met, name_at, net_fault};
ghost use Rattle.command_serve.specs.Serve.{serve_end, served_lines, telling_end, telling_of};
ghost use Rattle.command_serve.specs.ServeInside.{word_of};

use command_rows::{Status, Stop, write_number};
use ctl_io::{Sink, write_all};
use panel_server::{PlantDone, ServeFault};

// Says what came of serving a plant, whose traces are in files of these names.
pub(crate) fn tell<K: Sink>(
    answer: Result<PlantDone, ServeFault>,
    names: &[String],
    out: &mut K,
) -> Status
    ensures { ComesTo (serve_end (answered_end (texts names.now) answer)) (number_of result)
        (output_of K.written K.faults out.old) (output_of K.written K.faults out.new) }
{
    match answer {
        Ok(done) => tell_done(&done, names, out),
        Err(ServeFault::NoMemory) => Stop::NoMemory.report(out),
        Err(ServeFault::NetFault) => tell_net_fault(out),
    }
}

// Says what was done where a plant was served.
fn tell_done<K: Sink>(done: &PlantDone, names: &[String], out: &mut K) -> Status
    ensures { ComesTo (serve_end (answered_end (texts names.now) (Ok done.now)))
        (number_of result)
        (output_of K.written K.faults out.old) (output_of K.written K.faults out.new) }
{
    if write_served(out, done.sessions, done.entries) {
        tell_what_failed(done, names, out)
    } else {
        Status::Output
    }
}

// Appends the lines that say how many sessions and entries there were, and answers whether it could.
fn write_served<K: Sink>(out: &mut K, sessions: u64, entries: u64) -> bool
    ensures all { OnTrue result
        (K.written out.new ≡ appended (K.written out.old) (served_lines sessions entries)) }
    ensures front { OnFalse result (AppendsPart (served_lines sessions entries)
        (K.written out.old) (K.written out.new)) }
    ensures count { K.faults out.new ≡ count_after (not result) (K.faults out.old) }
{
    write_number(out, b"sessions ", sessions, b"\n")
        && write_number(out, b"entries ", entries, b"\n")
}

// Says what failed where a plant was served, or met a limit: first a trace, then the net.
fn tell_what_failed<K: Sink>(done: &PlantDone, names: &[String], out: &mut K) -> Status
    ensures { ComesTo (telling_end (telling_of (name_at (texts names.now) done.now.failed_trace)
        done.now.net_faults done.now.limits)) (number_of result)
        (output_of K.written K.faults out.old) (output_of K.written K.faults out.new) }
{
    if let Some(name) = name_at(names, done.failed_trace) {
        return Stop::FileFault(name).report(out);
    }
    if done.net_faults > 0 {
        tell_net_fault(out)
    } else if done.limits > 0 {
        tell_limits(out)
    } else {
        Status::Done
    }
}

// Says that the net had a fault.
fn tell_net_fault<K: Sink>(out: &mut K) -> Status
    ensures { ComesTo (ended 8 net_fault) (number_of result)
        (output_of K.written K.faults out.old) (output_of K.written K.faults out.new) }
{
    if write_all(out, b"net fault\n") {
        Status::Net
    } else {
        Status::Output
    }
}

// Says that a limit was met.
fn tell_limits<K: Sink>(out: &mut K) -> Status
    ensures { ComesTo (ended 9 limits_met) (number_of result)
        (output_of K.written K.faults out.old) (output_of K.written K.faults out.new) }
{
    if write_all(out, b"session limits met\n") {
        Status::Limits
    } else {
        Status::Output
    }
}

// The name at a place, if there is one.
fn name_at(names: &[String], place: Option<u32>) -> Option<&str>
    ensures { word_of result ≡ name_at (texts names.entry.now) place }
{
    let place = place? as usize;
    if place < names.len() {
        Some(names[place].as_str())
    } else {
        None
    }
}
