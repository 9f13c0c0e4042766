//! The command `keep`.

ghost use Rattle.std.specs.Prelude.{◌≡◌, ℕ, List, IfSome};
ghost use Rattle.ctl_io.specs.Crash.{LeavesOnly};
ghost use Rattle.ctl_io.specs.DiskPast.{DiskPast};
ghost use Rattle.ctl_io.specs.Faults.{count_after};
ghost use Rattle.ctl_io.specs.Held.{HeldOf, IsNamed, ShowsHeld};
ghost use Rattle.plant_snapshot.specs.StandsFor.{StandsFor};
ghost use Rattle.plant_snapshot.specs.Store.{disk_of, saved_number, IsStoreOf};
ghost use Rattle.record_replay.specs.Kept.{StandsOnTheWay};
ghost use Rattle.command_words.specs.Words.{texts};
ghost use Rattle.command_words.specs.Parts.{NoMore};
ghost use Rattle.command_rows.specs.LentDisk.{disk_end};
ghost use Rattle.command_rows.specs.Moment.{moment_of};
ghost use Rattle.command_rows.specs.Opener.{OpensOn, SaySome};
ghost use Rattle.command_rows.specs.Row.{RowEnds, RunsOn};
ghost use Rattle.command_rows.specs.StopInside.{number_of, opened_as};
ghost use Rattle.command_keep.specs.Keep.{KeepEnds, KeepRow, parts};
ghost use Rattle.command_keep.specs.KeepInside.{is_unwritten, outcome_of, KeepsOn, RunsSo};

use crate::outcome::{Outcome, parted, tell, unopened};
use command_rows::{Status, Stop, open_plant, read_script};
use ctl_io::{Disk, Files, Found, Sink};
use plant_config::Plant;
use plant_core::PlantState;
use plant_names::Names;
use plant_snapshot::{Store, open_saved};
use record_replay::replay_kept;
use std::alloc::Global;

/// Goes on from the state of the store with the lines of the script on the plant, of which the words behind `keep` speak.
pub fn keep<F: Files, K: Sink>(
    alloc: Global,
    words: &[String],
    files: &mut F,
    out: &mut K,
) -> Status
    requires { SaySome parts NoMore (texts words.now) }
    ensures { RunsOn parts NoMore KeepRow (texts words.now)
        (moment_of F.shows K.written K.faults files.old out.old)
        (moment_of F.shows K.written K.faults files.new out.new)
        (number_of result) }
{
    match open(alloc, words, files) {
        Ok((plant, store, script)) => work(alloc, &plant, store, script, files, out),
        Err(stop) => stop.report(out),
    }
}

// The plant, and the names of the store and of the script, of which words speak.
fn open<'a, F: Files>(
    alloc: Global,
    words: &'a [String],
    files: &mut F,
) -> Result<(Plant, &'a str, &'a str), Stop<'a>>
    requires { SaySome parts NoMore (texts words.now) }
    ensures { OpensOn parts NoMore (texts words.entry.now)
        (F.shows files.old)
        (F.shows files.new)
        (opened_as (λ its. (its.0, (its.1.now, (its.2.now, tt)))) result) }
{
    let [plant, store, script] = words else {
        unreachable!();
    };
    match open_plant(alloc, plant.as_str(), files) {
        Ok(plant) => Ok((plant, store.as_str(), script.as_str())),
        Err(stop) => Err(stop),
    }
}

// Keeps the script of this name in the store of this name.
fn work<F: Files, K: Sink>(
    alloc: Global,
    plant: &Plant,
    store: &str,
    script: &str,
    files: &mut F,
    out: &mut K,
) -> Status
    ensures { RowEnds (KeepEnds plant.now store.now script.now)
        (moment_of F.shows K.written K.faults files.old out.old)
        (moment_of F.shows K.written K.faults files.new out.new)
        (number_of result) }
{
    let Ok(names) = Names::new(alloc, plant) else {
        return Stop::NoMemory.report(out);
    };
    let disk = match files.disk(store, 0, false) {
        Found::Here(disk) => disk,
        Found::Missing => return Stop::FileMissing(store).report(out),
        Found::Failed => return Stop::FileFault(store).report(out),
    };
    let (outcome, disk) = keep_on(alloc, plant, &names, disk, script, files, out);
    files.close_disk(disk);
    tell(outcome, store, out)
}

// Opens the store on a disk, reads the script of this name, and goes on with its lines.
fn keep_on<'a, F: Files, D: Disk, K: Sink>(
    alloc: Global,
    plant: &Plant,
    names: &Names,
    disk: D,
    script: &'a str,
    files: &mut F,
    out: &mut K,
) -> (Outcome<'a>, D)
    requires names { names.now ≡ plant.now }
    requires new { D.faults disk ≡ 0 }
    ensures keeps { (held : HeldOf DiskPast) → ShowsHeld held (D.past disk)
        → KeepsOn plant.now script.entry.now held (F.shows files.old) (F.shows files.new)
        (disk_end D.name D.past D.faults result.1) (K.written out.old) (K.written out.new)
        (outcome_of result.0) }
    ensures named { (name : List ℕ) → IsNamed name (D.name disk)
        → IsNamed name (D.name result.1) }
    ensures disks { (F.shows files.new).custody.disks ≡ (F.shows files.old).custody.disks }
    ensures count { K.faults out.new
        ≡ count_after (is_unwritten (outcome_of result.0)) (K.faults out.old) }
{
    let (store, state) = match open_saved(alloc, plant, disk) {
        Ok(opened) => opened,
        Err(fault) => return unopened(fault),
    };
    let text = match read_script(alloc, script, files) {
        Ok(text) => text,
        Err(stop) => return (Outcome::Stopped(stop), store.into_disk()),
    };
    let mut state = state;
    run(alloc, plant, names, store, &mut state, &text, out)
}

// Goes on with the lines of a script from the state that a store stands for.
fn run<D: Disk, K: Sink>(
    alloc: Global,
    plant: &Plant,
    names: &Names,
    store: Store<D>,
    state: &mut PlantState,
    text: &[u8],
    out: &mut K,
) -> (Outcome<'static>, D)
    requires names { names.now ≡ plant.now }
    requires plant { state.old.plant ≡ plant.now }
    requires new { D.faults (disk_of store) ≡ 0 }
    requires store { IsStoreOf D.size D.contents D.may_leave plant.now store }
    requires stands { IfSome (D.contents (disk_of store))
        (StandsFor plant.now state.old (saved_number store)) }
    ensures runs { RunsSo plant.now text.now state.old (saved_number store)
        (disk_end D.name D.past D.faults result.1) (K.written out.old) (K.written out.new)
        (outcome_of result.0) }
    ensures any_moment { LeavesOnly D.moment D.left_since (disk_of store) result.1
        (StandsOnTheWay plant.now text.now state.old (saved_number store)) }
    ensures name { D.name result.1 ≡ D.name (disk_of store) }
    ensures count { K.faults out.new
        ≡ count_after (is_unwritten (outcome_of result.0)) (K.faults out.old) }
{
    parted(replay_kept(alloc, plant, names, state, store, text, out))
}
