//! Scripts: how one is read, and how a line of it is refused.

ghost use Rattle.command_rows.specs.Kinds.{script};
ghost use Rattle.command_rows.specs.Lines.{line_refused};
ghost use Rattle.command_rows.specs.End.{ComesTo, ended};
ghost use Rattle.command_rows.specs.Moment.{output_of};
ghost use Rattle.command_rows.specs.Opener.{ReadsWhole};
ghost use Rattle.command_rows.specs.StopInside.{number_of, opened_as};

use crate::status::Status;
use crate::stop::Stop;
use crate::whole::read_whole_file;
use crate::written::write_number;
use ctl_io::{Files, Sink};
use std::alloc::Global;

// The most bytes of a script, 64 MiB.
const MAX_SCRIPT: usize = 64 << 20;

/// The text of the script of this name, at most 64 MiB.
pub fn read_script<'a, F: Files>(
    alloc: Global,
    name: &'a str,
    files: &mut F,
) -> Result<Vec<u8>, Stop<'a>>
    ensures { ReadsWhole script.word script.longest name.entry.now
        (F.shows files.old)
        (F.shows files.new)
        (opened_as (λ text. text.items) result) }
{
    read_whole_file(alloc, "script", MAX_SCRIPT, name, files)
}

/// Says that the script's line of this number has no form.
pub fn refuse_line<K: Sink>(number: u64, out: &mut K) -> Status
    ensures { ComesTo (ended 5 (line_refused number)) (number_of result)
        (output_of K.written K.faults out.old) (output_of K.written K.faults out.new) }
{
    if write_number(out, b"script line ", number, b" refused\n") {
        Status::Refused
    } else {
        Status::Output
    }
}
