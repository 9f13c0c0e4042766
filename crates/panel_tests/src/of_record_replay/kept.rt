//! A replay that keeps its states, stopped at each call of its disk.

ghost use Rattle.std.specs.Prelude.{◌≡◌, ◌≤◌, IfOk, IfSome, length};
ghost use Rattle.ctl_io.specs.MemDisk.{stored_by};
ghost use Rattle.plant_snapshot.specs.StandsFor.{StandsFor, store_size};
ghost use Rattle.plant_snapshot.specs.Store.{IsStoreOf, disk_of, saved_number};

use ctl_io::{Disk, MemDisk, MemSink};
use plant_config::{DestId, Plant};
use plant_core::PlantState;
use plant_names::Names;
use plant_snapshot::{OpenFault, SaveFault, Store, format_store, open_saved, store_size};
use record_replay::{KeptFault, replay_kept};
use std::alloc::{AllocError, Global};
use std::process::Abort;
use std::test::Fail;

// The work of this number, from 1, connects destination 5 to the source of this number.
const SCRIPT: &[u8] = b"> 0 10 02 02 00 00 05 01 05 F3 10 03\n\n\
> 0 10 02 02 00 00 05 02 05 F2 10 03\n> 0 10 02 02 00 00 05 03 05 F1 10 03\n";

const TOLD: &[u8] = b"< 0 10061002040000050105F11003\n\
< 0 10061002040000050205F01003\n< 0 10061002040000050305EF1003\n";

// How many bytes a line of it has.
const LINE: usize = 31;

// How many calls format a disk, open it and save three states: 3, 3, 4, 4 and 6.
const CALLS: u64 = 20;

// A disk of the size of a plant's store, whose call of this number fails.
fn new_disk(alloc: Global, plant: &Plant, failing: u64) -> Result<MemDisk, AllocError>
    ensures { IfOk result (λ disk. length (stored_by disk).present ≡ store_size plant.now) }
{
    let bytes = vec![in alloc; 0; store_size(plant) as usize]?;
    MemDisk::new(alloc, bytes, CALLS, 1_000_000, vec![in alloc; failing]?)
}

// Keeps the script in a store, from the state for which it stands. Its disk, however far that came.
fn keep_on<D: Disk>(
    alloc: Global,
    plant: &Plant,
    names: &Names,
    state: &mut PlantState,
    store: Store<D>,
    out: &mut MemSink,
) -> D
    requires names { names.now ≡ plant.now }
    requires plant { state.old.plant ≡ plant.now }
    requires store { IsStoreOf D.size D.contents D.may_leave plant.now store }
    requires stands { IfSome (D.contents (disk_of store))
        (StandsFor plant.now state.old (saved_number store)) }
{
    match replay_kept(alloc, plant, names, state, store, SCRIPT, out) {
        Ok(store) | Err(KeptFault::OutputFault(store)) => store.into_disk(),
        Err(KeptFault::NoMemory(store) | KeptFault::BadLine(_, store)) => store.into_disk(),
        Err(KeptFault::Full(store)) => store.into_disk(),
        Err(KeptFault::Failed(disk)) => disk,
    }
}

// Keeps the script on a disk that is made a store first. The disk, however far that came.
fn keep<D: Disk>(alloc: Global, plant: &Plant, names: &Names, disk: D, out: &mut MemSink) -> D
    requires names { names.now ≡ plant.now }
    requires size { store_size plant.now ≤ D.size disk }
{
    let disk = match format_store(plant, disk) {
        Ok(disk) => disk,
        Err(SaveFault::Failed(disk)) => return disk,
        Err(SaveFault::Full(store)) => return store.into_disk(),
    };
    let (store, state) = match open_saved(alloc, plant, disk) {
        Ok(opened) => opened,
        Err(OpenFault::NoMemory(disk) | OpenFault::Failed(disk)) => return disk,
        Err(OpenFault::WrongSize { disk, .. } | OpenFault::Damaged { disk, .. }) => return disk,
    };
    let mut state = state;
    keep_on(alloc, plant, names, &mut state, store, out)
}

// The same, with the plant's names.
fn keep_named<D: Disk + Drop>(
    alloc: Global,
    plant: &Plant,
    disk: D,
    out: &mut MemSink,
) -> Result<D, AllocError>
    requires { store_size plant.now ≤ D.size disk }
{
    let names = Names::new(alloc, plant)?;
    Ok(keep(alloc, plant, &names, disk, out))
}

// How many lines are told, if they are the first of those that should be.
fn lines_of(out: &MemSink) -> Option<u64> {
    if TOLD.starts_with(out.written()) {
        Some((out.written().len() / LINE) as u64)
    } else {
        None
    }
}

// How many lines are told if the call of this number fails of a new disk, and that disk.
fn run(alloc: Global, plant: &Plant, failing: u64) -> Result<(Option<u64>, MemDisk), AllocError> {
    let mut out = MemSink::new(alloc, 100, Vec::new(alloc))?;
    let disk = new_disk(alloc, plant, failing)?;
    let disk = keep_named(alloc, plant, disk, &mut out)?;
    Ok((lines_of(&out), disk))
}

// The number of a store, if its state carries the source of that number to destination 5.
fn number_of(number: u64, state: &PlantState) -> Option<u64> {
    let source = match state.source_at(DestId::of(5)) {
        Some(source) => u64::from(source.get()),
        None => 0,
    };
    if source == number { Some(number) } else { None }
}

// The number of the store on a disk, if one is opened there and its state is the one of its number.
fn number_on<D: Disk + Drop>(alloc: Global, plant: &Plant, disk: D) -> Option<u64> {
    match open_saved(alloc, plant, disk) {
        Ok((store, state)) => number_of(store.number(), &state),
        Err(_) => None,
    }
}

// After a crash that keeps so many writes a disk's store stands for the state behind so many works, or behind one more.
fn stands(
    rt: &impl Abort,
    alloc: Global,
    plant: &Plant,
    disk: &MemDisk,
    kept: u64,
    works: u64,
) -> Result<(), AllocError> {
    let crashed = disk.crashed(alloc, kept)?;
    let number = number_on(alloc, plant, crashed);
    assert!(rt;
        number == Some(works) || number == Some(works.saturating_add(1)),
        "{works}"
    );
    Ok(())
}

// Whatever a crash leaves of a disk's last writes, it stands so.
fn outlasts_crashes(
    rt: &impl Abort,
    alloc: Global,
    plant: &Plant,
    disk: &MemDisk,
    works: u64,
) -> Result<(), AllocError> {
    for kept in 0..4 {
        stands(rt, alloc, plant, disk, kept, works)?;
    }
    Ok(())
}

// So it is behind the lines that are told where the call of this number fails of the disk, and all are where none does.
fn is_kept(rt: &impl Abort, alloc: Global, plant: &Plant, failing: u64) -> Result<(), AllocError> {
    let (lines, disk) = run(alloc, plant, failing)?;
    let Some(lines) = lines else {
        panic!(rt; "at {failing}")
    };
    assert!(rt; (lines == 3) == (failing == CALLS), "at {failing}");
    outlasts_crashes(rt, alloc, plant, &disk, lines)
}

#[test]
fn a_line_is_written_behind_its_save(rt: HostRuntime) -> Result<(), Fail> {
    let plant = Plant::bench(rt.alloc())?;
    for failing in 0..=CALLS {
        is_kept(&rt, rt.alloc(), &plant, failing)?;
    }
    Ok(())
}
