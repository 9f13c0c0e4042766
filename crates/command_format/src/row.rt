//! The command `format`.

ghost use Rattle.std.specs.Prelude.{◌≡◌, true, List, ℕ};
ghost use Rattle.std.specs.Bool.{OnTrue, OnFalse};
ghost use Rattle.ctl_io.specs.Faults.{is_faulty};
ghost use Rattle.ctl_io.specs.Held.{IsNamed};
ghost use Rattle.plant_snapshot.specs.StandsFor.{store_size};
ghost use Rattle.command_words.specs.Words.{texts};
ghost use Rattle.command_words.specs.Parts.{NoMore};
ghost use Rattle.command_rows.specs.LentDisk.{disk_end};
ghost use Rattle.command_rows.specs.Moment.{moment_of};
ghost use Rattle.command_rows.specs.Opener.{OpensOn, SaySome};
ghost use Rattle.command_rows.specs.Row.{RowEnds, RunsOn};
ghost use Rattle.command_rows.specs.StopInside.{number_of, opened_as};
ghost use Rattle.command_format.specs.Format.{FormatEnds, FormatRow, IsFormatted, parts};

use command_rows::{Status, Stop, open_plant, write_number};
use ctl_io::{Disk, Files, Found, Sink};
use plant_config::Plant;
use plant_snapshot::{SaveFault, format_store, store_size};
use std::alloc::Global;

/// Makes the store anew of the plant, of which the words behind `format` speak.
pub fn format<F: Files, K: Sink>(
    alloc: Global,
    words: &[String],
    files: &mut F,
    out: &mut K,
) -> Status
    requires { SaySome parts NoMore (texts words.now) }
    ensures { RunsOn parts NoMore FormatRow (texts words.now)
        (moment_of F.shows K.written K.faults files.old out.old)
        (moment_of F.shows K.written K.faults files.new out.new)
        (number_of result) }
{
    match open(alloc, words, files) {
        Ok((plant, store)) => work(&plant, store, files, out),
        Err(stop) => stop.report(out),
    }
}

// The plant, and the name of the store, of which words speak.
fn open<'a, F: Files>(
    alloc: Global,
    words: &'a [String],
    files: &mut F,
) -> Result<(Plant, &'a str), Stop<'a>>
    requires { SaySome parts NoMore (texts words.now) }
    ensures { OpensOn parts NoMore (texts words.entry.now)
        (F.shows files.old)
        (F.shows files.new)
        (opened_as (λ its. (its.0, (its.1.now, tt))) result) }
{
    let [plant, store] = words else {
        unreachable!();
    };
    match open_plant(alloc, plant.as_str(), files) {
        Ok(plant) => Ok((plant, store.as_str())),
        Err(stop) => Err(stop),
    }
}

// Makes the file of this name the store of this plant.
fn work<F: Files, K: Sink>(plant: &Plant, store: &str, files: &mut F, out: &mut K) -> Status
    ensures { RowEnds (FormatEnds plant.now store.now)
        (moment_of F.shows K.written K.faults files.old out.old)
        (moment_of F.shows K.written K.faults files.new out.new)
        (number_of result) }
{
    let size = store_size(plant);
    let disk = match files.disk(store, size, true) {
        Found::Here(disk) => disk,
        Found::Missing => unreachable!(),
        Found::Failed => return Stop::FileFault(store).report(out),
    };
    let (formatted, disk) = format_disk(plant, disk);
    files.close_disk(disk);
    if !formatted {
        return Stop::FileFault(store).report(out);
    }
    Status::Done.if_written(write_number(out, b"formatted ", size, b"\n"))
}

// Whether a disk was made the store of this plant, and the disk.
fn format_disk<D: Disk>(plant: &Plant, disk: D) -> (bool, D)
    requires size { D.size disk ≡ store_size plant.now }
    requires new { D.faults disk ≡ 0 }
    ensures named { (name : List ℕ) → IsNamed name (D.name disk)
        → IsNamed name (D.name result.1) }
    ensures done { OnTrue result.0
        (IsFormatted plant.now (disk_end D.name D.past D.faults result.1)) }
    ensures failed { OnFalse result.0 (is_faulty (D.faults result.1) ≡ true) }
{
    match format_store(plant, disk) {
        Ok(disk) => (true, disk),
        Err(SaveFault::Failed(disk)) => (false, disk),
        // Nothing is saved, so no number is too great.
        Err(SaveFault::Full(_)) => unreachable!(),
    }
}
