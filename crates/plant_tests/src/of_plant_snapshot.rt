//! A plant's store, stopped at each call of its disk, and the disks that aren't opened.

ghost use Rattle.std.specs.Prelude.{◌≡◌, ◌≤◌, IfOk, length};
ghost use Rattle.ctl_io.specs.MemDisk.{stored_by};
ghost use Rattle.plant_snapshot.specs.StandsFor.{store_size};
ghost use Rattle.plant_snapshot.specs.Store.{IsStoreOf};

use crate::of_plant_core::Rig;
use ctl_io::{Disk, MemDisk};
use plant_config::{DestId, PanelNo, Plant};
use plant_core::{PlantState, Request};
use plant_snapshot::{OpenFault, SaveFault, Store, format_store, open_saved, store_size};
use std::alloc::{AllocError, Global};
use std::process::Abort;
use std::test::Fail;
use swp08_messages::{Message, Point};

/// How many calls format a disk, open it and save three states: 3, 3, 4, 4 and 6.
const CALLS: u64 = 20;

// A disk of the size of a plant's store, whose call of this number fails.
fn new_disk(alloc: Global, plant: &Plant, failing: u64) -> Result<MemDisk, AllocError>
    ensures { IfOk result (λ disk. length (stored_by disk).present ≡ store_size plant.now) }
{
    let bytes = vec![in alloc; 0; store_size(plant) as usize]?;
    MemDisk::new(alloc, bytes, CALLS, 1_000_000, vec![in alloc; failing]?)
}

// Makes a disk a plant's store and opens it.
fn new_store<D: Disk>(alloc: Global, plant: &Plant, disk: D) -> Result<Store<D>, D>
    requires { store_size plant.now ≤ D.size disk }
    ensures { IfOk result (IsStoreOf D.size D.contents D.may_leave plant.now) }
{
    let disk = match format_store(plant, disk) {
        Ok(disk) => disk,
        Err(SaveFault::Failed(disk)) => return Err(disk),
        Err(SaveFault::Full(store)) => return Err(store.into_disk()),
    };
    match open_saved(alloc, plant, disk) {
        Ok((store, _state)) => Ok(store),
        Err(OpenFault::NoMemory(disk) | OpenFault::Failed(disk)) => Err(disk),
        Err(OpenFault::WrongSize { disk, .. } | OpenFault::Damaged { disk, .. }) => Err(disk),
    }
}

// Connects a source to destination 0, and saves that.
fn save_next<A: Abort, D: Disk>(
    rt: &A,
    rig: &mut Rig,
    store: Store<D>,
    source: u16,
) -> Result<Store<D>, D>
    requires { IsStoreOf D.size D.contents D.may_leave rig.old.state.plant store }
    ensures store { IfOk result (IsStoreOf D.size D.contents D.may_leave rig.new.state.plant) }
    ensures plant { rig.new.state.plant ≡ rig.old.state.plant }
{
    let connect = Request::Told {
        panel: PanelNo::of(0),
        item: 0,
        message: Message::Connect {
            at: Point {
                matrix: 0,
                level: 0,
                dest: 0,
            },
            source: Some(source),
        },
    };
    rig.ask(rt, &connect);
    match store.save(&rig.state) {
        Ok(store) => Ok(store),
        Err(SaveFault::Failed(disk)) => Err(disk),
        Err(SaveFault::Full(store)) => Err(store.into_disk()),
    }
}

// Saves three states, the source at destination 0 being the number of each, or as many as the disk's calls allow. How many
// were saved, and the disk.
fn save_three<A: Abort, D: Disk>(rt: &A, rig: &mut Rig, store: Store<D>) -> (u16, D)
    requires { IsStoreOf D.size D.contents D.may_leave rig.old.state.plant store }
{
    let store = match save_next(rt, rig, store, 1) {
        Ok(store) => store,
        Err(disk) => return (0, disk),
    };
    let store = match save_next(rt, rig, store, 2) {
        Ok(store) => store,
        Err(disk) => return (1, disk),
    };
    match save_next(rt, rig, store, 3) {
        Ok(store) => (3, store.into_disk()),
        Err(disk) => (2, disk),
    }
}

// The same on a new store.
fn save_from_start<A: Abort, D: Disk>(
    rt: &A,
    alloc: Global,
    plant: &Plant,
    rig: &mut Rig,
    disk: D,
) -> (u16, D)
    requires size { store_size plant.now ≤ D.size disk }
    requires plant { rig.old.state.plant ≡ plant.now }
{
    match new_store(alloc, plant, disk) {
        Ok(store) => save_three(rt, rig, store),
        Err(disk) => (0, disk),
    }
}

// The same on a disk that fails at the call of this number.
fn run(
    rt: &impl Abort,
    alloc: Global,
    plant: &Plant,
    failing: u64,
) -> Result<(u16, MemDisk), AllocError> {
    let disk = new_disk(alloc, plant, failing)?;
    let mut rig = Rig::of(alloc, plant)?;
    Ok(save_from_start(rt, alloc, plant, &mut rig, disk))
}

/// What comes of opening a disk.
#[derive(Clone, Copy, PartialEq, Eq)]
enum Opening {
    /// A store, by the number of what it keeps, which is the source at destination 0.
    Of(u64),
    /// One that keeps a state with another source there.
    Other,
    WrongSize(u64, u64),
    Damaged(u8, u64),
    Stopped,
}

// A store of this number that keeps this state.
fn kept_by(number: u64, state: &PlantState) -> Opening {
    let source = match state.source_at(DestId::of(0)) {
        Some(source) => u64::from(source.get()),
        None => 0,
    };
    if source == number {
        Opening::Of(number)
    } else {
        Opening::Other
    }
}

// What comes of opening a disk.
fn what_comes<D: Disk + Drop>(alloc: Global, plant: &Plant, disk: D) -> Opening {
    match open_saved(alloc, plant, disk) {
        Ok((store, state)) => kept_by(store.number(), &state),
        Err(OpenFault::NoMemory(_) | OpenFault::Failed(_)) => Opening::Stopped,
        Err(OpenFault::WrongSize { found, wanted, .. }) => Opening::WrongSize(found, wanted),
        Err(OpenFault::Damaged { slot, place, .. }) => Opening::Damaged(slot, place),
    }
}

// After a crash that keeps so many writes the store stands for the last saved state, or for the next.
fn stands(
    rt: &impl Abort,
    alloc: Global,
    plant: &Plant,
    disk: &MemDisk,
    kept: u64,
    saved: u16,
) -> Result<(), AllocError> {
    let opening = what_comes(alloc, plant, disk.crashed(alloc, kept)?);
    let saved = u64::from(saved);
    assert!(rt; opening == Opening::Of(saved) || opening == Opening::Of(saved + 1));
    Ok(())
}

// So it is where the call of this number fails. A format makes two writes before it syncs, and all else one.
fn stands_behind(
    rt: &impl Abort,
    alloc: Global,
    plant: &Plant,
    failing: u64,
) -> Result<(), AllocError> {
    let (saved, disk) = run(rt, alloc, plant, failing)?;
    assert!(rt; (saved == 3) == (failing == CALLS));
    let writes = if failing < 3 { 2 } else { 1 };
    for kept in 0..writes + 1 {
        stands(rt, alloc, plant, &disk, kept, saved)?;
    }
    Ok(())
}

#[test]
fn a_store_stands_for_a_state_whenever_it_is_stopped(rt: HostRuntime) -> Result<(), Fail> {
    let plant = Plant::bench(rt.alloc())?;
    for failing in 0..=CALLS {
        stands_behind(&rt, rt.alloc(), &plant, failing)?;
    }
    Ok(())
}

/// A place of a store's bytes, and the byte that is put there.
type Change = (usize, u8);

/// Changes of a store's bytes, the call of their disk that fails, and what comes of opening it.
type Row = (&'static [Change], u64, Opening);

/// The bench plant's store after three saves: the first slot has number 3, the second number 2. It is opened by four calls.
const OPENINGS: [Row; 11] = [
    (&[], CALLS, Opening::Of(3)),
    (&[(0, 2)], CALLS, Opening::Of(2)),
    (&[(0, 0), (262_811, 0)], CALLS, Opening::Of(0)),
    (&[(9, 33)], CALLS, Opening::Damaged(0, 0)),
    (&[(25, 77)], CALLS, Opening::Damaged(0, 16)),
    (&[(262_836, 77)], CALLS, Opening::Of(3)),
    (&[(0, 0), (262_836, 77)], CALLS, Opening::Damaged(1, 16)),
    (&[], 0, Opening::Stopped),
    (&[], 1, Opening::Stopped),
    (&[], 2, Opening::Stopped),
    (&[], 3, Opening::Stopped),
];

/// A disk that is too short.
const SHORT: Row = (&[], CALLS, Opening::WrongSize(10, 525_622));

// A store takes no state.
fn takes_none<D: Disk + Drop>(store: Store<D>, state: &PlantState) -> bool
    requires { IsStoreOf D.size D.contents D.may_leave state.now.plant store }
{
    matches!(store.save(state), Err(SaveFault::Full(_)))
}

// So it is with one whose number is 2^63 or more.
fn is_full<D: Disk + Drop>(alloc: Global, plant: &Plant, disk: D) -> bool {
    match open_saved(alloc, plant, disk) {
        Ok((store, state)) => takes_none(store, &state),
        Err(_) => false,
    }
}

// A disk of these bytes, with these changes, whose call of this number fails.
fn changed(
    rt: &impl Abort,
    alloc: Global,
    bytes: &[u8],
    changes: &[Change],
    failing: u64,
) -> Result<MemDisk, AllocError> {
    let mut bytes = bytes.to_vec(alloc)?;
    for (place, byte) in changes {
        assert!(rt; *place < bytes.len());
        bytes[*place] = *byte;
    }
    MemDisk::new(alloc, bytes, CALLS, 1_000_000, vec![in alloc; failing]?)
}

// A disk of these bytes is opened as its row says.
fn is_opened(
    rt: &impl Abort,
    alloc: Global,
    plant: &Plant,
    bytes: &[u8],
    row: &Row,
) -> Result<(), AllocError> {
    let (changes, failing, comes) = *row;
    let disk = changed(rt, alloc, bytes, changes, failing)?;
    assert!(rt; what_comes(alloc, plant, disk) == comes);
    Ok(())
}

// So are all of these.
fn are_opened(
    rt: &impl Abort,
    alloc: Global,
    plant: &Plant,
    bytes: &[u8],
) -> Result<(), AllocError> {
    is_opened(rt, alloc, plant, &[0; 10], &SHORT)?;
    for row in &OPENINGS {
        is_opened(rt, alloc, plant, bytes, row)?;
    }
    let last = changed(rt, alloc, bytes, &[(8, 128)], CALLS)?;
    assert!(rt; is_full(alloc, plant, last));
    Ok(())
}

#[test]
fn a_disk_is_opened_as_what_it_is(rt: HostRuntime) -> Result<(), Fail> {
    let plant = Plant::bench(rt.alloc())?;
    let (_saved, disk) = run(&rt, rt.alloc(), &plant, CALLS)?;
    Ok(are_opened(&rt, rt.alloc(), &plant, disk.bytes())?)
}
