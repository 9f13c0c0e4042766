//! Files read whole by their names.

ghost use Rattle.std.specs.Prelude.{◌≡◌, ◌≤◌, length, IfOk};
ghost use Rattle.ctl_io.specs.Faults.{count_after};
ghost use Rattle.ctl_io.specs.Held.{IsHeld, IsLonger, MayBeHere, MayBeMissing};
ghost use Rattle.ctl_io.specs.Held.{AllStay, OtherOpeningsStay};
ghost use Rattle.ctl_io.specs.WholeFile.{SaysMissing, SaysTooLong, SaysNoMemory, reading_of};
ghost use Rattle.ctl_io.specs.WholeFile.{reading_failed, AfterReading, IsGivenBack};

use crate::{Files, Found, WholeFault, read_whole};
use std::alloc::Global;

/// Why a file wasn't read whole.
#[derive(Clone, Copy, Debug, PartialEq, Eq)]
pub enum FileFault {
    NoMemory,
    /// The files have no such name.
    Missing,
    /// The file is longer than its limit.
    TooLong,
    /// The files failed, or a read did.
    Failed,
}

/// All the bytes of the file of this name, where these are at most `limit`. The file is given back whatever comes.
pub fn read_file<F: Files>(
    alloc: Global,
    files: &mut F,
    name: &str,
    limit: usize,
) -> Result<Vec<u8>, FileFault>
    ensures whole { IfOk result (λ whole.
        IsHeld ((F.shows files.old).held name.now 0) whole.items) }
    ensures within { IfOk result (λ whole. length whole.items ≤ limit) }
    ensures missing { SaysMissing result → MayBeMissing ((F.shows files.old).held name.now 0) }
    ensures too_long { SaysTooLong result → IsLonger limit ((F.shows files.old).held name.now 0) }
    ensures no_memory { SaysNoMemory result → MayBeHere ((F.shows files.old).held name.now 0) }
    ensures next { AfterReading (reading_of result)
        ((F.shows files.old).held name.now) ((F.shows files.new).held name.now) }
    ensures others { OtherOpeningsStay name.now (F.shows files.old).held (F.shows files.new).held }
    ensures disks { AllStay (F.shows files.old).disks (F.shows files.new).disks }
    ensures given_back { IsGivenBack (reading_of result) name.now
        (F.shows files.old).custody (F.shows files.new).custody }
    ensures count { (F.shows files.new).faults
        ≡ count_after (reading_failed (reading_of result)) (F.shows files.old).faults }
{
    let mut source = match files.source(name) {
        Found::Here(source) => source,
        Found::Missing => return Err(FileFault::Missing),
        Found::Failed => return Err(FileFault::Failed),
    };
    let whole = read_whole(alloc, &mut source, limit);
    files.close_source(source);
    whole.map_err(|fault| match fault {
        WholeFault::NoMemory => FileFault::NoMemory,
        WholeFault::TooLong => FileFault::TooLong,
        WholeFault::Failed => FileFault::Failed,
    })
}
