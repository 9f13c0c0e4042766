//! What stops a run at its inputs, and the line that goes with it.

ghost use Rattle.std.specs.Prelude.{◌≡◌, not};
ghost use Rattle.std.specs.Bool.{OnTrue, OnFalse};
ghost use Rattle.ctl_io.specs.Faults.{count_after};
ghost use Rattle.ctl_io.specs.Sink.{appended, AppendsPart};
ghost use Rattle.command_rows.specs.declared.stop.Stop.TheVariants.{NoMemory};
ghost use Rattle.command_rows.specs.Moment.{output_of};
ghost use Rattle.command_rows.specs.End.{ComesTo};
ghost use Rattle.command_rows.specs.StopInside.{end_of, number_of, stop_of_file, SaysFault};

use crate::status::Status;
use crate::written::{write_pair, write_parts};
use ctl_io::{FileFault, Sink, write_all};
use plant_config::PlantFault;
use std::alloc::{AllocError, Global};

/// Why a run stops before its command is worked, or where memory runs out.
#[derive(Debug, Drop)]
pub enum Stop<'a> {
    NoMemory,
    /// The files have no such name.
    FileMissing(&'a str),
    /// The files failed, or a read of this file did.
    FileFault(&'a str),
    /// The plant file has this fault.
    PlantRefused(String),
    PlantTooLong,
    /// A file of the kind that goes by this word is too long.
    TooLong(&'a str),
}

impl From<AllocError> for Stop<'_> {
    ghost from_gives = { λ _ stop. stop ≡ NoMemory };

    fn from(_: AllocError) -> Self {
        Stop::NoMemory
    }
}

impl<'a> Stop<'a> {
    // The stop for a fault of the file of this name, which is `too_long` where the file is that.
    pub(crate) fn of_file(fault: FileFault, name: &'a str, too_long: Stop<'a>) -> Stop<'a>
        ensures { result ≡ stop_of_file fault name.entry too_long.entry }
    {
        match fault {
            FileFault::NoMemory => Stop::NoMemory,
            FileFault::Missing => Stop::FileMissing(name),
            FileFault::Failed => Stop::FileFault(name),
            FileFault::TooLong => too_long,
        }
    }

    // The stop for a fault of a plant file's text.
    pub(crate) fn of_fault(alloc: Global, fault: PlantFault) -> Stop<'a>
        ensures { SaysFault fault result }
    {
        if fault == PlantFault::NoMemory {
            return Stop::NoMemory;
        }
        match fault.text(alloc) {
            Ok(why) => Stop::PlantRefused(why),
            Err(_) => Stop::NoMemory,
        }
    }

    /// Appends its line, and answers its status; where the line can't be written, that of the output.
    pub fn report<K: Sink>(&self, out: &mut K) -> Status
        ensures { ComesTo (end_of self.now) (number_of result)
            (output_of K.written K.faults out.old) (output_of K.written K.faults out.new) }
    {
        if self.write(out) {
            self.status()
        } else {
            Status::Output
        }
    }

    // Its status, where its line can be written.
    fn status(&self) -> Status
        ensures { number_of result ≡ (end_of self.now).status }
    {
        match self {
            Stop::NoMemory => Status::NoMemory,
            Stop::FileMissing(_) | Stop::FileFault(_) => Status::File,
            Stop::PlantRefused(_) | Stop::PlantTooLong => Status::Plant,
            Stop::TooLong(_) => Status::Refused,
        }
    }

    // Appends its line, and answers whether it could.
    fn write<K: Sink>(&self, out: &mut K) -> bool
        ensures all { OnTrue result
            (K.written out.new ≡ appended (K.written out.old) (end_of self.now).text) }
        ensures front { OnFalse result
            (AppendsPart (end_of self.now).text (K.written out.old) (K.written out.new)) }
        ensures count { K.faults out.new ≡ count_after (not result) (K.faults out.old) }
    {
        match self {
            Stop::NoMemory => write_all(out, b"no memory\n"),
            Stop::FileMissing(name) => write_parts(out, b"file ", name.as_bytes(), b" missing\n"),
            Stop::FileFault(name) => write_parts(out, b"file ", name.as_bytes(), b" fault\n"),
            Stop::PlantRefused(why) => {
                let text = why.as_str().as_bytes();
                write_parts(out, b"plant refused: ", text, b"\n")
            }
            Stop::PlantTooLong => write_all(out, b"plant refused: too long\n"),
            Stop::TooLong(word) => write_pair(out, word.as_bytes(), b" too long\n"),
        }
    }
}
