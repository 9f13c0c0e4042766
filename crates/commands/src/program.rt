//! The top call.

ghost use Rattle.command_words.specs.Words.{texts};
ghost use Rattle.command_rows.specs.Moment.{moment_of, output_of};
ghost use Rattle.commands.specs.Program.{EndsUnworded, ProgramEnds};

use crate::quiet::run_quiet;
use crate::rows::{Verb, waiting_command};
use command_drill::drill;
use command_rows::Stop;
use command_serve::serve;
use ctl_io::{Files, Sink};
use ctl_net::{Gate, Net};
use std::alloc::Global;
use std::sync::Wait;
use std::thread::Threads;

/// Does what the words ask, and answers the exit status.
///
/// The words ask for a command of the table: a quiet one, as of `run_quiet`, to which it hands what these ask, or one that waits
/// for others.
/// `drill NUMBER PANELS MESSAGES` works the drill of a number from 0 to 4294967295, with 1 to 16 panels and up to 200,000
/// messages, at least one for each panel, and says what it came to. `serve PLANT [PREFIX]` serves the panels and the displays
/// of a plant over the net until all panels had their sessions, and says how many sessions and entries of the history there
/// were. With PREFIX its traces are made in the files PREFIX.0 and so on, one a panel, and PREFIX.d for the displays. Each
/// session passes the gate at its start and at its end.
pub fn run<R: Threads + Wait + Sync, F: Files, N: Net, G: Gate, K: Sink>(
    rt: &R,
    alloc: Global,
    words: &[String],
    files: &mut F,
    net: &mut N,
    gate: &G,
    out: &mut K,
) -> u8
    ensures { ProgramEnds N.P.was_sent N.P.faults (texts words.now)
        (moment_of F.shows K.written K.faults files.old out.old)
        (moment_of F.shows K.written K.faults files.new out.new)
        (N.shows net.old) (N.shows net.new)
        result }
{
    let Some(asked) = waiting_command(words) else {
        return run_quiet(alloc, words, files, out);
    };
    match asked.verb {
        Verb::Drill => drill(rt, alloc, asked.behind, gate, out).number(),
        Verb::Serve => serve(rt, alloc, asked.behind, files, net, gate, out).number(),
        _ => unreachable!(),
    }
}

/// Ends a run for whose words there is no memory: appends the line that says so, and answers the exit status. That is 1, or
/// 7 where the line can't be written.
pub fn end_without_memory<K: Sink>(out: &mut K) -> u8
    ensures { EndsUnworded result (output_of K.written K.faults out.old)
        (output_of K.written K.faults out.new) }
{
    Stop::NoMemory.report(out).number()
}
