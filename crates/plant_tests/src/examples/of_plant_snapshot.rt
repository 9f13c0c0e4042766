//! One short use of `plant_snapshot`.

ghost use Rattle.std.specs.Prelude.{◌≡◌, IfOk, length};
ghost use Rattle.ctl_io.specs.MemDisk.{stored_by};
ghost use Rattle.plant_snapshot.specs.StandsFor.{store_size};
ghost use Rattle.plant_snapshot.specs.Store.{IsStoreOf};

use ctl_io::{Disk, MemDisk};
use plant_config::Plant;
use plant_core::PlantState;
use plant_snapshot::{Store, format_store, open_saved, store_size};
use std::alloc::{AllocError, Global};
use std::test::Fail;

// A disk for a plant's store.
fn new_disk(alloc: Global, plant: &Plant) -> Result<MemDisk, AllocError>
    ensures { IfOk result (λ disk. length (stored_by disk).present ≡ store_size plant.now) }
{
    let bytes = vec![in alloc; 0; store_size(plant) as usize]?;
    MemDisk::new(alloc, bytes, 20, 1_000_000, Vec::new(alloc))
}

// Saves a state in a store. Its disk.
fn save_in<D: Disk + Drop>(store: Store<D>, state: &PlantState) -> Option<D>
    requires { IsStoreOf D.size D.contents D.may_leave state.now.plant store }
{
    match store.save(state) {
        Ok(store) => Some(store.into_disk()),
        Err(_) => None,
    }
}

// Makes a disk a plant's store, and saves the state in it.
fn save_once<D: Disk + Drop>(alloc: Global, plant: &Plant, disk: D) -> Option<D>
    requires { D.size disk ≡ store_size plant.now }
{
    let Ok(disk) = format_store(plant, disk) else {
        return None;
    };
    let Ok((store, state)) = open_saved(alloc, plant, disk) else {
        return None;
    };
    save_in(store, &state)
}

// The number of the state that is kept on a disk.
fn number_on<D: Disk + Drop>(alloc: Global, plant: &Plant, disk: D) -> Option<u64> {
    match open_saved(alloc, plant, disk) {
        Ok((store, _state)) => Some(store.number()),
        Err(_) => None,
    }
}

// The number of what is kept once a state was saved and a crash came.
fn number_kept(alloc: Global, plant: &Plant) -> Result<Option<u64>, AllocError> {
    let disk = new_disk(alloc, plant)?;
    let Some(disk) = save_once(alloc, plant, disk) else {
        return Ok(None);
    };
    let crashed = disk.crashed(alloc, 0)?;
    Ok(number_on(alloc, plant, crashed))
}

#[test]
fn a_saved_state_outlasts_a_crash(rt: HostRuntime) -> Result<(), Fail> {
    let plant = Plant::bench(rt.alloc())?;
    let number = number_kept(rt.alloc(), &plant)?;
    assert!(rt; number == Some(1));
    Ok(())
}
