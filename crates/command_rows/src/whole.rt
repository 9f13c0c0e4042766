//! Files that are read whole.

ghost use Rattle.std.specs.Prelude.{ℕ};
ghost use Rattle.command_rows.specs.Opener.{ReadsWhole};
ghost use Rattle.command_rows.specs.StopInside.{opened_as};

use crate::stop::Stop;
use ctl_io::{Files, read_file};
use std::alloc::Global;

/// The bytes of the file of this name, at most so many. If it has more, the line says that what this word calls is too long.
pub fn read_whole_file<'a, F: Files>(
    alloc: Global,
    word: &'a str,
    most: usize,
    name: &'a str,
    files: &mut F,
) -> Result<Vec<u8>, Stop<'a>>
    ensures { ReadsWhole word.entry.now most name.entry.now
        (F.shows files.old)
        (F.shows files.new)
        (opened_as (λ bytes. bytes.items) result) }
{
    match read_file(alloc, files, name, most) {
        Ok(bytes) => Ok(bytes),
        Err(fault) => Err(Stop::of_file(fault, name, Stop::TooLong(word))),
    }
}
