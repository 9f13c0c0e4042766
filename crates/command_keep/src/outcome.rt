//! What came of a keep whose store was there, and how that is told.

ghost use Rattle.std.specs.Prelude.{◌≡◌, ◌++◌, not};
ghost use Rattle.std.specs.Bool.{OnTrue, OnFalse};
ghost use Rattle.std.specs.Fmt.{decimal};
ghost use Rattle.ctl_io.specs.Faults.{count_after};
ghost use Rattle.ctl_io.specs.Sink.{appended, AppendsPart};
ghost use Rattle.plant_snapshot.specs.Answers.{disk_unopened};
ghost use Rattle.record_replay.specs.Kept.{disk_kept};
ghost use Rattle.command_rows.specs.End.{ComesTo, ended};
ghost use Rattle.command_rows.specs.Lines.{line};
ghost use Rattle.command_rows.specs.Moment.{output_of};
ghost use Rattle.command_rows.specs.StopInside.{number_of};
ghost use Rattle.command_keep.specs.Keep.{damaged, store_full, wrong_size};
ghost use Rattle.command_keep.specs.KeepInside.{outcome_of, outcome_kept, outcome_unopened};
ghost use Rattle.command_keep.specs.KeepInside.{TellsOutcome};

use command_rows::{Status, Stop, refuse_line, write_number};
use ctl_io::{Disk, Sink, write_all};
use plant_snapshot::{OpenFault, Store};
use record_replay::KeptFault;

/// What came of a keep whose store was there.
#[derive(Debug, Drop)]
pub(crate) enum Outcome<'a> {
    /// All was kept, the last work under this number.
    Kept(u64),
    /// Memory ran out, or the script stopped the run.
    Stopped(Stop<'a>),
    /// A call of the store's disk failed.
    Failed,
    WrongSize { found: u64, wanted: u64 },
    Damaged { slot: u8, place: u64 },
    /// The script's line of this number has no form.
    BadLine(u64),
    Full,
    /// An output line couldn't be written.
    Unwritten,
}

// What came of an opening that failed, and the disk.
pub(crate) fn unopened<D: Disk>(fault: OpenFault<D>) -> (Outcome<'static>, D)
    ensures outcome { outcome_of result.0 ≡ outcome_unopened fault }
    ensures disk { result.1 ≡ disk_unopened fault }
{
    match fault {
        OpenFault::NoMemory(disk) => (Outcome::Stopped(Stop::NoMemory), disk),
        OpenFault::WrongSize {
            disk,
            found,
            wanted,
        } => (Outcome::WrongSize { found, wanted }, disk),
        OpenFault::Failed(disk) => (Outcome::Failed, disk),
        OpenFault::Damaged { disk, slot, place } => (Outcome::Damaged { slot, place }, disk),
    }
}

// What came of a replay that keeps its states, and the disk.
pub(crate) fn parted<D: Disk>(kept: Result<Store<D>, KeptFault<D>>) -> (Outcome<'static>, D)
    ensures outcome { outcome_of result.0 ≡ outcome_kept kept }
    ensures disk { result.1 ≡ disk_kept kept }
{
    match kept {
        Ok(store) => (Outcome::Kept(store.number()), store.into_disk()),
        Err(KeptFault::NoMemory(store)) => (Outcome::Stopped(Stop::NoMemory), store.into_disk()),
        Err(KeptFault::BadLine(number, store)) => (Outcome::BadLine(number), store.into_disk()),
        Err(KeptFault::OutputFault(store)) => (Outcome::Unwritten, store.into_disk()),
        Err(KeptFault::Failed(disk)) => (Outcome::Failed, disk),
        Err(KeptFault::Full(store)) => (Outcome::Full, store.into_disk()),
    }
}

// Tells what came of a keep in the store of this name, behind the output lines.
pub(crate) fn tell<K: Sink>(outcome: Outcome<'_>, store: &str, out: &mut K) -> Status
    ensures { TellsOutcome store.now (outcome_of outcome.entry)
        (output_of K.written K.faults out.old)
        (output_of K.written K.faults out.new) (number_of result) }
{
    match outcome {
        Outcome::Kept(number) => {
            Status::Done.if_written(write_number(out, b"saved ", number, b"\n"))
        }
        Outcome::Stopped(stop) => stop.report(out),
        Outcome::Failed => Stop::FileFault(store).report(out),
        Outcome::WrongSize { found, wanted } => refuse_size(found, wanted, out),
        Outcome::Damaged { slot, place } => refuse_slot(slot, place, out),
        Outcome::BadLine(number) => refuse_line(number, out),
        Outcome::Full => tell_full(out),
        Outcome::Unwritten => Status::Output,
    }
}

// Says that a store of this size isn't one of the plant's, which have the other.
fn refuse_size<K: Sink>(found: u64, wanted: u64, out: &mut K) -> Status
    ensures { ComesTo (ended 5 (wrong_size found wanted)) (number_of result)
        (output_of K.written K.faults out.old) (output_of K.written K.faults out.new) }
{
    let front = b"store refused: WrongSize found ";
    if write_numbers(out, front, found, b" wanted ", wanted) {
        Status::Refused
    } else {
        Status::Output
    }
}

// Says that the text in this slot of a store isn't one of a state, and where it breaks a rule.
fn refuse_slot<K: Sink>(slot: u8, place: u64, out: &mut K) -> Status
    ensures { ComesTo (ended 5 (damaged slot place)) (number_of result)
        (output_of K.written K.faults out.old) (output_of K.written K.faults out.new) }
{
    let front = b"store refused: Damaged slot ";
    if write_numbers(out, front, slot as u64, b" place ", place) {
        Status::Refused
    } else {
        Status::Output
    }
}

// Says that nothing more can be saved in a store.
fn tell_full<K: Sink>(out: &mut K) -> Status
    ensures { ComesTo (ended 5 store_full) (number_of result)
        (output_of K.written K.faults out.old) (output_of K.written K.faults out.new) }
{
    if write_all(out, b"store full\n") {
        Status::Refused
    } else {
        Status::Output
    }
}

// Appends a line of two numbers in decimal, each behind a text, and answers whether it could.
fn write_numbers<K: Sink>(out: &mut K, front: &[u8], one: u64, middle: &[u8], other: u64) -> bool
    ensures all { OnTrue result (K.written out.new ≡ appended (K.written out.old)
        (line (front.now ++ decimal one ++ middle.now ++ decimal other))) }
    ensures front { OnFalse result
        (AppendsPart (line (front.now ++ decimal one ++ middle.now ++ decimal other))
        (K.written out.old) (K.written out.new)) }
    ensures count { K.faults out.new ≡ count_after (not result) (K.faults out.old) }
{
    write_number(out, front, one, middle) && write_number(out, b"", other, b"\n")
}
