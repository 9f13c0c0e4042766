//! Each call to the outside of `check`, `replay` and `audit` fails once, at each place where it can.

use super::{Failing, File, NOTHING, Ran, run_over};
use std::alloc::{AllocError, Global};
use std::sync::Wait;
use std::test::Fail;
use std::thread::Threads;

// A command: its words, the files that it opens, in order, the line that says the fault of each, and its whole output.
struct Command {
    words: &'static [&'static str],
    files: &'static [File<'static>],
    faults: &'static [&'static str],
    output: &'static str,
}

const PLANT: File<'static> = (
    "plant",
    b"title = \"Small\"\n\
        [[level]]\nmatrix = 0\nlevel = 0\nsources = 4\ndestinations = 3\n\
        [[panel]]\ndevice = 1\nport = 9001\n",
);

const CHECK: Command = Command {
    words: &["check", "plant"],
    files: &[PLANT],
    faults: &["file plant fault\n"],
    output: "plant Small\nlevels 1\nsources 4\ndestinations 3\npools 0\nties 0\ndevices 0\nbuses 0\n\
        displays 0\npanels 1\n",
};

const REPLAY: Command = Command {
    words: &["replay", "plant", "script"],
    files: &[PLANT, ("script", b"> 0 00\npoll 0\n> 0 1003\n")],
    faults: &["file plant fault\n", "file script fault\n"],
    output: "< 0 -\n< 0 -\n< 0 -\n",
};

const AUDIT: Command = Command {
    words: &["audit", "plant", "one", "other"],
    files: &[
        PLANT,
        ("one", b"1 leave 0 = -\n"),
        ("other", b"0 poll 0 1 0 = -\n2 leave 0 = -\n"),
    ],
    faults: &[
        "file plant fault\n",
        "file one fault\n",
        "file other fault\n",
    ],
    output: "confirmed 3\n",
};

// The calls of a kind: the openings of files, the reads of the file at a place, or the writes of the output.
#[derive(Clone, Copy)]
enum Calls {
    Openings,
    Reads(usize),
    Writes,
}

// Commands, and how many calls of a kind they make. Of a file one read gives the text, and one finds its end.
const TABLE: [(&Command, Calls, u64); 12] = [
    (&CHECK, Calls::Openings, 1),
    (&CHECK, Calls::Reads(0), 2),
    (&CHECK, Calls::Writes, 1),
    (&REPLAY, Calls::Openings, 2),
    (&REPLAY, Calls::Reads(0), 2),
    (&REPLAY, Calls::Reads(1), 2),
    (&REPLAY, Calls::Writes, 1),
    (&AUDIT, Calls::Openings, 3),
    (&AUDIT, Calls::Reads(0), 2),
    (&AUDIT, Calls::Reads(1), 2),
    (&AUDIT, Calls::Reads(2), 2),
    (&AUDIT, Calls::Writes, 3),
];

// More calls of a kind than a command here makes.
const MANY: u64 = 32;

// The call of this kind and number.
fn failing_of(calls: Calls, number: u64) -> Failing {
    match calls {
        Calls::Openings => Failing {
            opening: number,
            ..NOTHING
        },
        Calls::Reads(place) => Failing {
            place,
            read: number,
            ..NOTHING
        },
        Calls::Writes => Failing {
            write: number,
            ..NOTHING
        },
    }
}

// Whether a run was whole: no call failed, and each file was given back.
fn is_whole(ran: &Ran, command: &Command) -> bool {
    ran.status == 0
        && ran.out.written() == command.output.as_bytes()
        && ran.out.faults() == 0
        && ran.files.faults() == 0
        && ran.files.sources_back().len() == command.files.len()
}

// Whether a run was stopped by a fault of the file at a place, once so many files had been given back.
fn is_stopped(ran: &Ran, command: &Command, place: usize, back: usize) -> bool {
    let Some(fault) = command.faults.get(place) else {
        return false;
    };
    ran.status == 3
        && ran.out.written() == fault.as_bytes()
        && ran.out.faults() == 0
        && ran.files.faults() == 1
        && ran.files.sources_back().len() == back
}

// Whether a run was cut at a write: its output is a front of the whole.
fn is_cut(ran: &Ran, command: &Command) -> bool {
    ran.status == 7
        && command.output.as_bytes().starts_with(ran.out.written())
        && ran.out.written().len() < command.output.len()
        && ran.out.faults() == 1
        && ran.files.faults() == 0
        && ran.files.sources_back().len() == command.files.len()
}

// Whether a run of which the call of this kind and number failed ended as it should.
fn is_ended(ran: &Ran, command: &Command, calls: Calls, number: u64) -> bool {
    match calls {
        Calls::Openings => is_stopped(ran, command, number as usize, number as usize),
        Calls::Reads(place) => is_stopped(ran, command, place, place.saturating_add(1)),
        Calls::Writes => is_cut(ran, command),
    }
}

// How many calls of a kind a command makes, where each of them ends it as it should when it fails.
fn ending_calls<R: Threads + Wait + Sync>(
    rt: &R,
    alloc: Global,
    command: &Command,
    calls: Calls,
) -> Result<Option<u64>, AllocError> {
    for number in 0..MANY {
        let failing = failing_of(calls, number);
        let ran = run_over(rt, alloc, command.words, command.files, failing)?;
        if is_whole(&ran, command) {
            return Ok(Some(number));
        }
        if !is_ended(&ran, command, calls, number) {
            return Ok(None);
        }
    }
    Ok(None)
}

#[test]
fn each_call_fails(rt: HostRuntime) -> Result<(), Fail> {
    let alloc = rt.alloc();
    for (command, calls, count) in TABLE {
        assert_eq!(rt; ending_calls(&rt, alloc, command, calls)?, Some(count));
    }
    Ok(())
}
