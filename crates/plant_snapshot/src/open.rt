//! A plant's store is opened: which state it stands for.

ghost use Rattle.std.specs.Prelude.{◌≡◌, ◌≤◌, ℕ, vec_len, IfOk, IfSome};
ghost use Rattle.ctl_io.specs.Crash.{LeavesNoMore, LeavesOnly};
ghost use Rattle.ctl_io.specs.Faults.{count_after};
ghost use Rattle.plant_snapshot.specs.StandsFor.{entry_size, store_size, StandsFor};
ghost use Rattle.plant_snapshot.specs.Store.{saved_number, IsStoreOf};
ghost use Rattle.plant_snapshot.specs.Answers.{disk_opened, open_failed};
ghost use Rattle.plant_snapshot.specs.Answers.{TellsSize, TellsDamage, GivesBack};

use crate::fault::OpenFault;
use crate::saved::{Unread, read_saved};
use crate::size::{entry_size, store_size};
use crate::store::Store;
use ctl_io::Disk;
use plant_config::Plant;
use plant_core::PlantState;
use state_store::Slots;
use std::alloc::{AllocError, Global};

/// The store of a plant on a disk, and the state that it stands for. The disk's size is looked at first. What it shows is
/// made to last before it is read.
pub fn open_saved<D: Disk>(
    alloc: Global,
    plant: &Plant,
    disk: D,
) -> Result<(Store<D>, PlantState), OpenFault<D>>
    ensures stands { IfOk result (λ opened. IfSome (D.contents disk)
        (StandsFor plant.now opened.1 (saved_number opened.0))) }
    ensures store { IfOk result (λ opened.
        IsStoreOf D.size D.contents D.may_leave plant.now opened.0) }
    ensures plant { IfOk result (λ opened. opened.1.plant ≡ plant.now) }
    ensures wrong_size { TellsSize (D.size disk) (store_size plant.now) result }
    ensures damaged { IfSome (D.contents disk) (TellsDamage plant.now result) }

    // Contents that stand for a state give that state, unless memory is wanting or the disk is at fault.
    ensures same { IfSome (D.contents disk) (GivesBack plant.now result) }
    ensures contents { D.contents (disk_opened result) ≡ D.contents disk }
    ensures crash { LeavesNoMore (D.may_leave disk) (D.may_leave (disk_opened result)) }

    // A crash at any moment of the call leaves no more than it might have before.
    ensures any_moment { LeavesOnly D.moment D.left_since disk (disk_opened result)
        (D.may_leave disk) }
    ensures size { D.size (disk_opened result) ≡ D.size disk }
    ensures name { D.name (disk_opened result) ≡ D.name disk }
    ensures count { D.faults (disk_opened result)
        ≡ count_after (open_failed result) (D.faults disk) }
{
    let wanted = store_size(plant);
    let found = disk.size();
    if found != wanted {
        return Err(OpenFault::WrongSize {
            disk,
            found,
            wanted,
        });
    }
    match zeros(alloc, entry_size(plant)) {
        Ok(entry) => open_with(alloc, plant, disk, entry),
        Err(_) => Err(OpenFault::NoMemory(disk)),
    }
}

// So many zeros.
fn zeros(alloc: Global, count: usize) -> Result<Vec<u8>, AllocError>
    ensures { IfOk result (λ zeros. vec_len zeros ≡ count) }
{
    vec![in alloc; 0; count]
}

// The same on a disk that is large enough, with room for an entry.
fn open_with<D: Disk>(
    alloc: Global,
    plant: &Plant,
    disk: D,
    entry: Vec<u8>,
) -> Result<(Store<D>, PlantState), OpenFault<D>>
    requires within { store_size plant.now ≤ D.size disk }
    requires room { vec_len entry ≡ entry_size plant.now }
    ensures stands { IfOk result (λ opened. IfSome (D.contents disk)
        (StandsFor plant.now opened.1 (saved_number opened.0))) }
    ensures store { IfOk result (λ opened.
        IsStoreOf D.size D.contents D.may_leave plant.now opened.0) }
    ensures plant { IfOk result (λ opened. opened.1.plant ≡ plant.now) }
    ensures right_size { (bytes : ℕ) → TellsSize bytes bytes result }
    ensures damaged { IfSome (D.contents disk) (TellsDamage plant.now result) }
    ensures same { IfSome (D.contents disk) (GivesBack plant.now result) }
    ensures contents { D.contents (disk_opened result) ≡ D.contents disk }
    ensures crash { LeavesNoMore (D.may_leave disk) (D.may_leave (disk_opened result)) }
    ensures any_moment { LeavesOnly D.moment D.left_since disk (disk_opened result)
        (D.may_leave disk) }
    ensures size { D.size (disk_opened result) ≡ D.size disk }
    ensures name { D.name (disk_opened result) ≡ D.name disk }
    ensures count { D.faults (disk_opened result)
        ≡ count_after (open_failed result) (D.faults disk) }
{
    let mut entry = entry;
    let slots = match Slots::open(disk, &mut entry) {
        Ok(slots) => slots,
        Err(disk) => return Err(OpenFault::Failed(disk)),
    };
    match read_saved(alloc, plant, slots.standing(), &entry) {
        Ok(state) => Ok((Store { slots, entry }, state)),
        Err(Unread::NoMemory) => Err(OpenFault::NoMemory(slots.into_disk())),
        Err(Unread::Damaged { slot, place }) => Err(OpenFault::Damaged {
            disk: slots.into_disk(),
            slot,
            place,
        }),
    }
}
