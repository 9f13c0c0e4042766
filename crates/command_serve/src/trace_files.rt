//! The files of the traces of a plant that is served.

ghost use Rattle.std.specs.Prelude.{◌≡◌, ◌≤◌, [], length, map, IfErr, IfOk, OnOk};
ghost use Rattle.std.specs.Prelude.{vec_capacity};
ghost use Rattle.command_words.specs.Words.{texts};
ghost use Rattle.command_serve.specs.Traces.{AreAsMade, FailsToMakeAll, MakesFiles, StopsMaking};
ghost use Rattle.command_serve.specs.Traces.{TakesAllBack, trace_names};
ghost use Rattle.command_rows.specs.MadeFile.{sink_end};

use ctl_io::{Files, Made};
use std::alloc::{AllocError, Global};

/// Why files of traces were not made.
#[derive(Clone, Copy, Debug, PartialEq, Eq)]
pub(crate) enum Unmade {
    NoMemory,
    /// The file of the name at this place could not be made.
    Refused(usize),
}

// The names of the traces of a plant with so many panels: one a panel, in order, and last that of the displays.
pub(crate) fn trace_names(
    alloc: Global,
    prefix: &str,
    panels: usize,
) -> Result<Vec<String>, AllocError>
    ensures { IfOk result (λ names. texts names.items ≡ trace_names prefix.now panels) }
{
    let mut names = Vec::new(alloc);
    for panel in 0..panels {
        let name = format!(in alloc; "{prefix}.{panel}")?;
        names.push(name)?;
    }
    let last = format!(in alloc; "{prefix}.d")?;
    names.push(last)?;
    Ok(names)
}

// Makes the files of these names anew, in order. Where one can't be made, those before it are given back, as they were made.
pub(crate) fn make_traces<F: Files>(
    alloc: Global,
    files: &mut F,
    names: &[String],
) -> Result<Vec<F::K>, Unmade>
    ensures made { OnOk result (MakesFiles (texts names.now)
        (F.shows files.old)
        (F.shows files.new)) }
    ensures as_made { IfOk result (λ traces. AreAsMade (texts names.now)
        (map (sink_end F.K.name F.K.written F.K.faults) traces.items)) }
    ensures out { IfOk result
        (λ traces. length traces.items ≤ (F.shows files.new).custody.sinks.out) }
    ensures unmade { IfErr result (λ unmade. FailsToMakeAll (texts names.now) unmade
        (F.shows files.old)
        (F.shows files.new)) }
{
    let mut traces = match Vec::with_capacity(alloc, names.len()) {
        Ok(traces) => traces,
        Err(_) => return Err(Unmade::NoMemory),
    };
    match make_each(files, names, &mut traces) {
        Ok(()) => Ok(traces),
        Err(place) => {
            close_traces(files, traces);
            Err(Unmade::Refused(place))
        }
    }
}

// Makes the files of these names, and puts their sinks to the traces. The error is the place of the name of which that failed.
// It takes no memory.
fn make_each<F: Files>(files: &mut F, names: &[String], traces: &mut Vec<F::K>) -> Result<(), usize>
    requires none { traces.old.items ≡ [] }
    requires room { length names.now ≤ vec_capacity traces.old }
    ensures made { OnOk result (MakesFiles (texts names.now)
        (F.shows files.old)
        (F.shows files.new)) }
    ensures as_made { OnOk result (AreAsMade (texts names.now)
        (map (sink_end F.K.name F.K.written F.K.faults) traces.new.items)) }
    ensures out { length traces.new.items ≤ (F.shows files.new).custody.sinks.out }
    ensures stops { IfErr result (λ place. StopsMaking (texts names.now) place
        (map (sink_end F.K.name F.K.written F.K.faults) traces.new.items)
        (F.shows files.old)
        (F.shows files.new)) }
{
    for (place, name) in names.iter().enumerate() {
        match files.sink(name.as_str()) {
            Made::Here(sink) => traces.push_reserved(sink),
            Made::Failed => return Err(place),
        }
    }
    Ok(())
}

// Gives traces back, the last first.
pub(crate) fn close_traces<F: Files>(files: &mut F, mut traces: Vec<F::K>)
    requires { length traces.items ≤ (F.shows files.old).custody.sinks.out }
    ensures { TakesAllBack (map (sink_end F.K.name F.K.written F.K.faults) traces.items)
        (F.shows files.old)
        (F.shows files.new) }
{
    while let Some(trace) = traces.pop() {
        files.close_sink(trace);
    }
    traces.destroy_empty();
}
