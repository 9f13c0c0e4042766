//! A replay that keeps the state behind each line in a store, before the line is written.

ghost use Rattle.std.specs.Prelude.{◌≡◌, ◌≢◌, ◌^◌, ◌≤◌, ◌⊎◌, ℕ, [], List, Some, Err};
ghost use Rattle.std.specs.Prelude.{IfOk, IfSome};
ghost use Rattle.ctl_io.specs.Crash.{LeavesOnly};
ghost use Rattle.ctl_io.specs.Faults.{count_after};
ghost use Rattle.plant_snapshot.specs.StandsFor.{StandsFor};
ghost use Rattle.plant_snapshot.specs.Store.{disk_of, saved_number, IsStoreOf};
ghost use Rattle.record_replay.specs.Script.{HasWorks, IsFirstBad};
ghost use Rattle.record_replay.specs.ReplayerInside.{StandsAt};
ghost use Rattle.record_replay.specs.Kept.{begun_in, disk_kept, store_kept, line_unwritten};
ghost use Rattle.record_replay.specs.Kept.{keep_failed, KeepsAll, KeepsSome, KeepsBut};
ghost use Rattle.record_replay.specs.Kept.{StandsBehindLines, StandsOnTheWay, WritesFirst};
ghost use Rattle.record_replay.specs.KeptInside.{KeepsTo, SavesLine};

use crate::check::check_lines;
use crate::digits::Digits;
use crate::replayer::Replayer;
use crate::unwritten::UnwrittenLine;
use ctl_io::{Disk, Sink, write_all};
use line_text::Room;
use plant_config::Plant;
use plant_core::PlantState;
use plant_names::Names;
use plant_snapshot::{SaveFault, Store};
use std::alloc::Global;

/// Why a replay that keeps its states ended early. Each gives the store back, or its disk.
#[derive(Debug, Drop)]
pub enum KeptFault<D> {
    NoMemory(Store<D>),
    /// The line of this number, counted from 1, is the first that has no form. Nothing was worked.
    BadLine(u64, Store<D>),
    /// A write of the output failed, behind the save of its line's work.
    OutputFault(Store<D>),
    /// A call of the disk failed. The disk is opened again.
    Failed(D),
    /// The store's number is 2^63 or more: the work of the next line isn't saved, and its output line isn't written.
    Full(Store<D>),
}

/// `replay_script` from this state on, which the store stands for: each line is worked, its state is saved, and then its output
/// line is written. So whatever moment it is stopped at, the store stands for a front of the works that has every line that
/// was written whole. At its end `state` is the one behind all works that were done, saved or not. An output line waits in
/// memory for the save before it, and there may be none for it.
pub fn replay_kept<K: Sink, D: Disk>(
    alloc: Global,
    plant: &Plant,
    names: &Names,
    state: &mut PlantState,
    store: Store<D>,
    script: &[u8],
    out: &mut K,
) -> Result<Store<D>, KeptFault<D>>
    requires names { names.now ≡ plant.now }
    requires plant { state.old.plant ≡ plant.now }
    requires store { IsStoreOf D.size D.contents D.may_leave plant.now store }
    requires stands { IfSome (D.contents (disk_of store))
        (StandsFor plant.now state.old (saved_number store)) }
    // All works were done and saved, and all their lines were written.
    ensures ok { IfOk result (KeepsAll D.contents plant.now script.now state.old
        (saved_number store) state.new (K.written out.old) (K.written out.new)) }
    // A store that is handed back stands for the works whose lines were written, of which a write may have cut the last.
    ensures stands { IfSome (store_kept result) (KeepsSome D.contents plant.now script.now state.old
        (saved_number store) (line_unwritten result) (K.written out.old) (K.written out.new)) }
    ensures store { IfSome (store_kept result)
        (IsStoreOf D.size D.contents D.may_leave plant.now) }
    ensures bad_line { (number : ℕ) (same : _) → result ≡ Err (KeptFault.BadLine number same)
        → IsFirstBad plant.now script.now number }
    // Nothing was saved or written at a bad line.
    ensures same { (number : ℕ) (same : _) → result ≡ Err (KeptFault.BadLine number same)
        → (same ≡ store) × (K.written out.new ≡ K.written out.old) }
    // Something was saved or written only where every line that isn't skipped spells a work.
    ensures form { HasWorks plant.now script.now
        ⊎ ((store_kept result ≡ Some store) × (K.written out.new ≡ K.written out.old)) }
    ensures full { (kept : _) → result ≡ Err (KeptFault.Full kept)
        → 2 ^ 63 ≤ saved_number kept }
    // Then a line of work is left, the first that wasn't saved.
    ensures unsaved { (kept : _) → result ≡ Err (KeptFault.Full kept)
        → KeepsBut D.contents plant.now script.now state.old (saved_number store)
        (K.written out.old) (K.written out.new) kept }
    // Where a call of the disk failed, all lines before that of the work that was to be saved were written.
    ensures failed { (disk : _) → result ≡ Err (KeptFault.Failed disk)
        → WritesFirst plant.now script.now state.old (K.written out.old) (K.written out.new) }

    // A crash at any moment of the call leaves the state behind some of the works.
    ensures any_moment { LeavesOnly D.moment D.left_since (disk_of store) (disk_kept result)
        (StandsOnTheWay plant.now script.now state.old (saved_number store)) }
    // At its end, whatever it answers, a crash leaves the state behind works that have every line that was written whole.
    ensures at_end { (c : List ℕ) → D.may_leave (disk_kept result) c
        → StandsBehindLines plant.now script.now state.old (saved_number store)
        (K.written out.old) (K.written out.new) c }
    ensures size { D.size (disk_kept result) ≡ D.size (disk_of store) }
    ensures name { D.name (disk_kept result) ≡ D.name (disk_of store) }
    // The counts of faults tell which of the two failed.
    ensures disk_count { D.faults (disk_kept result)
        ≡ count_after (keep_failed result) (D.faults (disk_of store)) }
    ensures count { K.faults out.new ≡ count_after (line_unwritten result) (K.faults out.old) }
{
    let Ok(mut digits) = Digits::new(alloc) else {
        return Err(KeptFault::NoMemory(store));
    };
    if let Some(number) = check_lines(&mut digits, plant, names, script) {
        return Err(KeptFault::BadLine(number, store));
    }
    keep_script(alloc, plant, names, &mut digits, state, store, script, out)
}

// So where each line has a form.
fn keep_script<K: Sink, D: Disk>(
    alloc: Global,
    plant: &Plant,
    names: &Names,
    digits: &mut Digits,
    state: &mut PlantState,
    store: Store<D>,
    script: &[u8],
    out: &mut K,
) -> Result<Store<D>, KeptFault<D>>
    requires names { names.now ≡ plant.now }
    requires form { HasWorks plant.now script.now }
    requires plant { state.old.plant ≡ plant.now }
    requires store { IsStoreOf D.size D.contents D.may_leave plant.now store }
    requires stands { IfSome (D.contents (disk_of store))
        (StandsFor plant.now state.old (saved_number store)) }
    ensures keeps { KeepsTo D.size D.contents D.may_leave D.moment D.left_since D.faults D.name
        plant.now script.now state.old state.new store
        (K.written out.old) (K.written out.new) result }
    ensures count { K.faults out.new ≡ count_after (line_unwritten result) (K.faults out.old) }
{
    let Ok(mut room) = Room::new(alloc) else {
        return Err(KeptFault::NoMemory(store));
    };
    let Ok(mut replayer) = Replayer::start(alloc, plant, names) else {
        return Err(KeptFault::NoMemory(store));
    };
    let mut line = UnwrittenLine::new(alloc);
    state.is_kept();
    replayer.exchange_state(state);
    let kept = keep_lines(
        script,
        names,
        digits,
        &mut replayer,
        &mut room,
        &mut line,
        store,
        out,
    );
    replayer.exchange_state(state);
    kept
}

// So by a replayer that begins in the state that the store stands for.
fn keep_lines<K: Sink, D: Disk>(
    script: &[u8],
    names: &Names,
    digits: &mut Digits,
    replayer: &mut Replayer<'_>,
    room: &mut Room,
    line: &mut UnwrittenLine,
    store: Store<D>,
    out: &mut K,
) -> Result<Store<D>, KeptFault<D>>
    requires names { names.now ≡ replayer.old.plant.now }
    requires form { HasWorks replayer.old.plant.now script.now }
    requires begun { StandsAt replayer.old.plant.now replayer.old
        (begun_in replayer.old.state) 0 }
    requires store { IsStoreOf D.size D.contents D.may_leave replayer.old.plant.now store }
    requires stands { IfSome (D.contents (disk_of store))
        (StandsFor replayer.old.plant.now replayer.old.state (saved_number store)) }
    ensures keeps { KeepsTo D.size D.contents D.may_leave D.moment D.left_since D.faults D.name
        replayer.old.plant.now script.now replayer.old.state replayer.new.state store
        (K.written out.old) (K.written out.new) result }
    ensures count { K.faults out.new ≡ count_after (line_unwritten result) (K.faults out.old) }
{
    let mut store = store;
    let mut rest = script;
    while !rest.is_empty() {
        let Some(behind) = replayer.work_in_memory(rest, names, digits, room, line) else {
            return Err(KeptFault::NoMemory(store));
        };
        rest = behind;
        let text = line.bytes();
        if text.is_empty() {
            continue;
        }
        store = match keep_line(store, replayer.state(), text, out) {
            Ok(saved) => saved,
            Err(fault) => return Err(fault),
        };
    }
    Ok(store)
}

// Saves the state behind a piece of work, and then writes its output line.
fn keep_line<K: Sink, D: Disk>(
    store: Store<D>,
    state: &PlantState,
    line: &[u8],
    out: &mut K,
) -> Result<Store<D>, KeptFault<D>>
    requires { IsStoreOf D.size D.contents D.may_leave state.now.plant store }
    ensures saves { SavesLine D.size D.contents D.may_leave D.moment D.left_since D.faults D.name
        state.now.plant state.now line.now store (K.written out.old) (K.written out.new) result }
    ensures count { K.faults out.new ≡ count_after (line_unwritten result) (K.faults out.old) }
{
    let saved = match store.save(state) {
        Ok(saved) => saved,
        Err(SaveFault::Failed(disk)) => return Err(KeptFault::Failed(disk)),
        Err(SaveFault::Full(same)) => return Err(KeptFault::Full(same)),
    };
    if write_all(out, line) {
        Ok(saved)
    } else {
        Err(KeptFault::OutputFault(saved))
    }
}
