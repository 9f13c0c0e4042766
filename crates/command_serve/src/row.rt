//! The command `serve`.

ghost use Rattle.std.specs.Prelude.{◌≡◌, None, Some};
ghost use Rattle.command_words.specs.Words.{texts};
ghost use Rattle.command_words.specs.Parts.{Prefix};
ghost use Rattle.command_rows.specs.Moment.{Snapshot, moment_of, output_of};
ghost use Rattle.command_rows.specs.Opener.{OpensOn, SaySome};
ghost use Rattle.command_rows.specs.Row.{RowEnds};
ghost use Rattle.command_rows.specs.StopInside.{number_of, opened_as};
ghost use Rattle.command_serve.specs.Serve.{ServeRow, ServesOn, parts};
ghost use Rattle.command_serve.specs.ServeInside.{word_of};

use crate::told::tell;
use crate::trace_files::{Unmade, close_traces, make_traces, trace_names};
use command_rows::{Status, Stop, open_plant};
use ctl_io::{Dropped, Files, Sink};
use ctl_net::{Gate, Net};
use plant_config::Plant;
use plant_names::Names;
use std::alloc::Global;
use std::sync::Wait;
use std::thread::Threads;

/// Serves the plant of which the words behind `serve` speak over the net, with its traces in files if there is a prefix, and says
/// what came of it.
pub fn serve<R: Threads + Wait + Sync, F: Files, N: Net, G: Gate, K: Sink>(
    rt: &R,
    alloc: Global,
    words: &[String],
    files: &mut F,
    net: &mut N,
    gate: &G,
    out: &mut K,
) -> Status
    requires { SaySome parts Prefix (texts words.now) }
    ensures { ServesOn N.P.was_sent N.P.faults (texts words.now)
        (moment_of F.shows K.written K.faults files.old out.old)
        (moment_of F.shows K.written K.faults files.new out.new)
        (N.shows net.old) (N.shows net.new) (number_of result) }
{
    match open(alloc, words, files) {
        Ok((plant, prefix)) => work(rt, alloc, &plant, prefix, files, net, gate, out),
        Err(stop) => stop.report(out),
    }
}

// The plant and the prefix of which words speak.
fn open<'a, F: Files>(
    alloc: Global,
    words: &'a [String],
    files: &mut F,
) -> Result<(Plant, Option<&'a str>), Stop<'a>>
    requires { SaySome parts Prefix (texts words.now) }
    ensures { OpensOn parts Prefix (texts words.entry.now)
        (F.shows files.old)
        (F.shows files.new)
        (opened_as (λ its. (its.0, word_of its.1)) result) }
{
    match words {
        [plant] => match open_plant(alloc, plant.as_str(), files) {
            Ok(plant) => Ok((plant, None)),
            Err(stop) => Err(stop),
        },
        [plant, prefix] => match open_plant(alloc, plant.as_str(), files) {
            Ok(plant) => Ok((plant, Some(prefix.as_str()))),
            Err(stop) => Err(stop),
        },
        _ => unreachable!(),
    }
}

// Serves this plant, with its traces in files if there is a prefix.
fn work<R: Threads + Wait + Sync, F: Files, N: Net, G: Gate, K: Sink>(
    rt: &R,
    alloc: Global,
    plant: &Plant,
    prefix: Option<&str>,
    files: &mut F,
    net: &mut N,
    gate: &G,
    out: &mut K,
) -> Status
    ensures { RowEnds (ServeRow N.P.was_sent N.P.faults (N.shows net.old) (N.shows net.new)
        (plant.now, word_of prefix.entry))
        (moment_of F.shows K.written K.faults files.old out.old)
        (moment_of F.shows K.written K.faults files.new out.new) (number_of result) }
{
    let Ok(names) = Names::new(alloc, plant) else {
        return Stop::NoMemory.report(out);
    };
    match prefix {
        Some(prefix) => serve_traced(rt, alloc, plant, &names, prefix, files, net, gate, out),
        None => serve_untraced(rt, alloc, plant, &names, net, gate, out),
    }
}

// Serves a plant with its traces in files whose names have this prefix.
fn serve_traced<R: Threads + Wait + Sync, F: Files, N: Net, G: Gate, K: Sink>(
    rt: &R,
    alloc: Global,
    plant: &Plant,
    names: &Names,
    prefix: &str,
    files: &mut F,
    net: &mut N,
    gate: &G,
    out: &mut K,
) -> Status
    requires names { names.now ≡ plant.now }
    ensures { RowEnds (ServeRow N.P.was_sent N.P.faults (N.shows net.old) (N.shows net.new)
        (plant.now, Some prefix.now))
        (moment_of F.shows K.written K.faults files.old out.old)
        (moment_of F.shows K.written K.faults files.new out.new) (number_of result) }
{
    let Ok(trace_names) = trace_names(alloc, prefix, plant.panels().len()) else {
        return Stop::NoMemory.report(out);
    };
    let traces = match make_traces(alloc, files, &trace_names) {
        Ok(traces) => traces,
        Err(Unmade::NoMemory) => return Stop::NoMemory.report(out),
        Err(Unmade::Refused(place)) => {
            return Stop::FileFault(trace_names[place].as_str()).report(out);
        }
    };
    let (traces, answer) = panel_server::serve(rt, alloc, plant, names, net, gate, traces);
    close_traces(files, traces);
    tell(answer, &trace_names, out)
}

// Serves a plant whose traces nobody wants.
fn serve_untraced<R: Threads + Wait + Sync, N: Net, G: Gate, K: Sink>(
    rt: &R,
    alloc: Global,
    plant: &Plant,
    names: &Names,
    net: &mut N,
    gate: &G,
    out: &mut K,
) -> Status
    requires names { names.now ≡ plant.now }
    ensures { (files : Snapshot) → RowEnds (ServeRow N.P.was_sent N.P.faults
        (N.shows net.old) (N.shows net.new) (plant.now, None))
        (record { files = files; output = output_of K.written K.faults out.old })
        (record { files = files; output = output_of K.written K.faults out.new })
        (number_of result) }
{
    let Ok(traces) = vec![in alloc; Dropped; plant.panels().len() + 1] else {
        return Stop::NoMemory.report(out);
    };
    let (_, answer) = panel_server::serve(rt, alloc, plant, names, net, gate, traces);
    tell(answer, &[], out)
}
