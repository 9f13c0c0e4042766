//! Runs over files and an output in memory, by subject.

ghost use Rattle.std.specs.Prelude.{IfOk};
ghost use Rattle.ctl_io.specs.Memory.{IsNewSource};

mod audits;
mod calls_fail;
mod changes;
mod day;
mod drives;
mod ends;
mod frames;
mod keeps;
mod limits;
mod plants;
mod services;
mod sessions;
mod standbys;
mod stores;
mod streams;
mod ties;
mod words;

use commands::run;
use ctl_io::{Bytes, MemFiles, MemSink, MemSource, NamedSource};
use ctl_net::{MemNet, OpenGate};
use std::alloc::{AllocError, Global};
use std::sync::Wait;
use std::thread::Threads;

// The number of a call that is never made.
const NEVER: u64 = u64::MAX;

// The room of an output.
const ROOM: usize = 100_000;

const REPLAY: &[&str] = &["replay", "bench", "script"];

const AUDIT: &[&str] = &["audit", "bench", "script"];

// A file: its name and its text.
type File<'a> = (&'a str, &'a [u8]);

// The calls that fail, by their numbers: an opening of a file, a read of the file at a place, and a write of the output.
#[derive(Clone, Copy)]
struct Failing {
    opening: u64,
    place: usize,
    read: u64,
    write: u64,
}

const NOTHING: Failing = Failing {
    opening: NEVER,
    place: 0,
    read: NEVER,
    write: NEVER,
};

// What a run left.
#[derive(Drop)]
struct Ran {
    status: u8,
    files: MemFiles,
    out: MemSink,
}

// Words, and the status and the output of a run with them.
type Run = (&'static [&'static str], u8, &'static str);

// The first of these runs over these files that ends otherwise, or `None` where all end so.
fn first_wrong<R: Threads + Wait + Sync>(
    rt: &R,
    alloc: Global,
    files: &[File<'_>],
    runs: &[Run],
) -> Result<Option<usize>, AllocError> {
    for (at, (words, status, output)) in runs.iter().enumerate() {
        if !ends_so(rt, alloc, words, files, NOTHING, *status, output)? {
            return Ok(Some(at));
        }
    }
    Ok(None)
}

// Whether a replay of this script on the bench plant ends with this status and this output.
fn replays_so<R: Threads + Wait + Sync>(
    rt: &R,
    alloc: Global,
    script: &[u8],
    status: u8,
    output: &str,
) -> Result<bool, AllocError> {
    ends_so(
        rt,
        alloc,
        REPLAY,
        &[("script", script)],
        NOTHING,
        status,
        output,
    )
}

// Whether a run with these words over these files ends with this status and this output.
fn ends_so<R: Threads + Wait + Sync>(
    rt: &R,
    alloc: Global,
    words: &[&str],
    files: &[File<'_>],
    failing: Failing,
    status: u8,
    output: &str,
) -> Result<bool, AllocError> {
    let ran = run_over(rt, alloc, words, files, failing)?;
    Ok(ran.status == status && ran.out.written() == output.as_bytes())
}

// Runs these words over these files, without a net.
fn run_over<R: Threads + Wait + Sync>(
    rt: &R,
    alloc: Global,
    words: &[&str],
    files: &[File<'_>],
    failing: Failing,
) -> Result<Ran, AllocError> {
    let mut files = files_of(alloc, files, failing)?;
    let mut net = MemNet::new(alloc, Vec::new(alloc), Vec::new(alloc), 0, Vec::new(alloc))?;
    let (status, out) = worked(rt, alloc, words, &mut files, &mut net, failing.write)?;
    Ok(Ran { status, files, out })
}

// Runs these words over files and a net: the status, and the output, of which a write fails.
fn worked<R: Threads + Wait + Sync>(
    rt: &R,
    alloc: Global,
    words: &[&str],
    files: &mut MemFiles,
    net: &mut MemNet,
    write: u64,
) -> Result<(u8, MemSink), AllocError> {
    let words = owned(alloc, words)?;
    let mut out = MemSink::new(alloc, ROOM, vec![in alloc; write]?)?;
    let status = run(rt, alloc, &words, files, net, &OpenGate, &mut out);
    Ok((status, out))
}

// These files as sources.
fn files_of(alloc: Global, files: &[File<'_>], failing: Failing) -> Result<MemFiles, AllocError> {
    let mut sources = Vec::new(alloc);
    for (place, (name, text)) in files.iter().enumerate() {
        let read = if place == failing.place {
            failing.read
        } else {
            NEVER
        };
        sources.push(source_of(alloc, name, text, read)?)?;
    }
    let openings = vec![in alloc; failing.opening]?;
    let (sinks, disks) = (Vec::new(alloc), Vec::new(alloc));
    MemFiles::new(alloc, sources, sinks, disks, files.len(), openings, 0, 0, 0)
}

// A source of this name and text, of which a read fails.
fn source_of(
    alloc: Global,
    name: &str,
    text: &[u8],
    failing: u64,
) -> Result<NamedSource, AllocError>
    ensures { IfOk result (λ entry. IsNewSource entry.source) }
{
    let source = MemSource::new(alloc, text.to_vec(alloc)?, vec![in alloc; failing]?)?;
    let name = Bytes::of(name.as_bytes().to_vec(alloc)?);
    Ok(NamedSource { name, source })
}

// The words as the program has them.
fn owned(alloc: Global, words: &[&str]) -> Result<Vec<String>, AllocError> {
    let mut owned = Vec::new(alloc);
    for word in words {
        owned.push(String::from_str(alloc, word)?)?;
    }
    Ok(owned)
}
