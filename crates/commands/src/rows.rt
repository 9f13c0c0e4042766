//! The table of commands, and the row of each quiet one.

ghost use Rattle.std.specs.Prelude.{◌≡◌, IfErr, IfOk, MatchOption, false, true};
ghost use Rattle.commands.specs.Rows.{AsksFor, promise_of, row_of, table};
ghost use Rattle.command_words.specs.Table.{AskNone, AskOne, usage as line_of_usage};
ghost use Rattle.command_words.specs.Words.{texts};
ghost use Rattle.command_rows.specs.Moment.{moment_of};
ghost use Rattle.command_rows.specs.Opener.{SaySome};
ghost use Rattle.command_rows.specs.Row.{RunsOn};
ghost use Rattle.command_rows.specs.StopInside.{number_of};

use command_audit::audit;
use command_check::check;
use command_drive::drive;
use command_format::format;
use command_keep::keep;
use command_monitor::monitor;
use command_replay::replay;
use command_rows::Status;
use command_standby::standby;
use command_stream::stream;
use command_words::{Asked, FileKind, Last, Line, Low, Part, read_quiet, read_waiting};
use ctl_io::{Files, Sink};
use std::alloc::{AllocError, Global};

/// A command.
#[derive(Clone, Copy, Debug, PartialEq, Eq)]
pub enum Verb {
    Check,
    Replay,
    Audit,
    Serve,
    Drill,
    Stream,
    Monitor,
    Format,
    Keep,
    Standby,
    Drive,
}

const SCRIPT: FileKind = FileKind {
    word: "script",
    longest: 67_108_864,
};

const TRACE: FileKind = FileKind {
    word: "trace",
    longest: 268_435_456,
};

const RECORDING: FileKind = FileKind {
    word: "stream",
    longest: 67_108_864,
};

// The commands, in the order of the usage line.
const ROWS: &[Line<Verb>] = &[
    Line {
        verb: Verb::Check,
        name: "check",
        parts: &[Part::Plant],
        last: Last::NoMore,
        words: &["PLANT"],
        is_quiet: true,
    },
    Line {
        verb: Verb::Replay,
        name: "replay",
        parts: &[Part::Plant, Part::Whole(SCRIPT)],
        last: Last::NoMore,
        words: &["PLANT", "SCRIPT"],
        is_quiet: true,
    },
    Line {
        verb: Verb::Audit,
        name: "audit",
        parts: &[Part::Plant],
        last: Last::Wholes(TRACE),
        words: &["PLANT", "TRACE.."],
        is_quiet: true,
    },
    Line {
        verb: Verb::Serve,
        name: "serve",
        parts: &[Part::Plant],
        last: Last::Prefix,
        words: &["PLANT", "[PREFIX]"],
        is_quiet: false,
    },
    Line {
        verb: Verb::Drill,
        name: "drill",
        parts: &[
            Part::Number(Low::AtLeast(0), 4_294_967_295),
            Part::Number(Low::AtLeast(1), 16),
            Part::Number(Low::AsBefore, 200_000),
        ],
        last: Last::NoMore,
        words: &["NUMBER", "PANELS", "MESSAGES"],
        is_quiet: false,
    },
    Line {
        verb: Verb::Stream,
        name: "stream",
        parts: &[Part::Plant, Part::Whole(SCRIPT), Part::Made],
        last: Last::NoMore,
        words: &["PLANT", "SCRIPT", "OUT"],
        is_quiet: true,
    },
    Line {
        verb: Verb::Monitor,
        name: "monitor",
        parts: &[Part::Whole(RECORDING)],
        last: Last::NoMore,
        words: &["FILE"],
        is_quiet: true,
    },
    Line {
        verb: Verb::Format,
        name: "format",
        parts: &[Part::Plant, Part::Store],
        last: Last::NoMore,
        words: &["PLANT", "STORE"],
        is_quiet: true,
    },
    Line {
        verb: Verb::Keep,
        name: "keep",
        parts: &[Part::Plant, Part::Store, Part::Later(SCRIPT)],
        last: Last::NoMore,
        words: &["PLANT", "STORE", "SCRIPT"],
        is_quiet: true,
    },
    Line {
        verb: Verb::Standby,
        name: "standby",
        parts: &[Part::Plant],
        last: Last::Wholes(TRACE),
        words: &["PLANT", "TRACE.."],
        is_quiet: true,
    },
    Line {
        verb: Verb::Drive,
        name: "drive",
        parts: &[
            Part::Number(Low::AtLeast(0), 4_294_967_295),
            Part::Number(Low::AtLeast(1), 100_000),
        ],
        last: Last::NoMore,
        words: &["NUMBER", "WANTS"],
        is_quiet: true,
    },
];

/// The quiet command that words ask for, `None` if they ask for none. Memory runs out only if they ask for one.
pub fn quiet_command<'a>(
    alloc: Global,
    words: &'a [String],
) -> Result<Option<Asked<'a, Verb>>, AllocError>
    ensures read { IfOk result (λ read. MatchOption read
        (AskNone table true (texts words.now))
        (λ asked. AsksFor true (texts words.now) asked.verb (texts asked.behind.now))) }
    ensures no_memory { IfErr result (λ _. AskOne table true (texts words.now)) }
{
    read_quiet(alloc, ROWS, words)
}

/// The command that waits for others and that words ask for, `None` if they ask for none. It takes no memory.
pub fn waiting_command<'a>(words: &'a [String]) -> Option<Asked<'a, Verb>>
    ensures { MatchOption result
        (AskNone table false (texts words.now))
        (λ asked. AsksFor false (texts words.now) asked.verb (texts asked.behind.now)) }
{
    read_waiting(ROWS, words)
}

/// The usage line: all forms, in the order of the table.
pub fn usage() -> &'static [u8]
    ensures { result.now ≡ line_of_usage table }
{
    b"usage: plantctl check PLANT, replay PLANT SCRIPT, audit PLANT TRACE.., serve PLANT [PREFIX], drill NUMBER PANELS MESSAGES, stream PLANT SCRIPT OUT, monitor FILE, format PLANT STORE, keep PLANT STORE SCRIPT, standby PLANT TRACE.., drive NUMBER WANTS\n"
}

// Runs the row of a quiet command, with these words behind its name.
pub(crate) fn run_row<F: Files, K: Sink>(
    alloc: Global,
    verb: Verb,
    behind: &[String],
    files: &mut F,
    out: &mut K,
) -> Status
    requires said { SaySome (row_of verb).form.parts (row_of verb).form.last (texts behind.now) }
    requires quiet { (row_of verb).form.is_quiet ≡ true }
    ensures { RunsOn (row_of verb).form.parts (row_of verb).form.last (promise_of verb)
        (texts behind.now)
        (moment_of F.shows K.written K.faults files.old out.old)
        (moment_of F.shows K.written K.faults files.new out.new)
        (number_of result) }
{
    match verb {
        Verb::Check => check(alloc, behind, files, out),
        Verb::Replay => replay(alloc, behind, files, out),
        Verb::Audit => audit(alloc, behind, files, out),
        Verb::Stream => stream(alloc, behind, files, out),
        Verb::Monitor => monitor(alloc, behind, files, out),
        Verb::Format => format(alloc, behind, files, out),
        Verb::Keep => keep(alloc, behind, files, out),
        Verb::Standby => standby(alloc, behind, files, out),
        Verb::Drive => drive(alloc, behind, out),
        Verb::Serve => unreachable!(),
        Verb::Drill => unreachable!(),
    }
}
