//! Traces: how more than one file is read whole.

ghost use Rattle.line_text.specs.Lines.{lines};
ghost use Rattle.command_words.specs.Words.{texts};
ghost use Rattle.command_rows.specs.Kinds.{trace};
ghost use Rattle.command_rows.specs.Opener.{ReadsAll};
ghost use Rattle.command_rows.specs.StopInside.{opened_as};

use crate::stop::Stop;
use crate::whole::read_whole_file;
use ctl_io::Files;
use line_text::join_lines;
use std::alloc::Global;

// The most bytes of all traces together, 256 MiB.
const MAX_TRACES: usize = 256 << 20;

/// All lines of the traces of these names, in order, in one text: together they have at most 256 MiB.
pub fn read_traces<'a, F: Files>(
    alloc: Global,
    names: &'a [String],
    files: &mut F,
) -> Result<Vec<u8>, Stop<'a>>
    ensures { ReadsAll trace.word trace.longest (texts names.entry.now)
        (F.shows files.old)
        (F.shows files.new)
        (opened_as (λ text. lines text.items) result) }
{
    let mut text = Vec::new(alloc);
    let mut left = MAX_TRACES;
    for name in names {
        let more = match read_whole_file(alloc, "trace", left, name.as_str(), files) {
            Ok(more) => more,
            Err(stop) => return Err(stop),
        };
        left -= more.len();
        match join_lines(&mut text, more) {
            Ok(()) => {}
            Err(_) => return Err(Stop::NoMemory),
        }
    }
    Ok(text)
}
