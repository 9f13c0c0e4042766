//! A plant's store on a disk, and how a state is saved in it.

ghost use Rattle.std.specs.Prelude.{◌≡◌, ◌+◌, ℕ, List, IfOk, IfSome};
ghost use Rattle.ctl_io.specs.Crash.{LeavesOnly};
ghost use Rattle.ctl_io.specs.Faults.{count_after};
ghost use Rattle.plant_core.specs.State.{State};
ghost use Rattle.plant_snapshot.specs.StandsFor.{StandsFor, StandsForEither};
ghost use Rattle.plant_snapshot.specs.Store.{disk_of, saved_number, IsStoreOf};
ghost use Rattle.plant_snapshot.specs.Answers.{disk_saved, save_failed, TellsFull};

use crate::entry::put_entry;
use crate::fault::SaveFault;
use ctl_io::Disk;
use plant_core::PlantState;
use state_store::Slots;

// Under a number that isn't below this one nothing is saved any more.
const NUMBER_LIMIT: u64 = 1 << 63;

/// A plant's store on a disk. It has taken all the memory that saves need.
#[derive(Debug, Drop)]
pub struct Store<D> {
    pub(crate) slots: Slots<D>,
    // What is written in a save: a number and the text of a state.
    pub(crate) entry: Vec<u8>,
}

impl<D: Disk> Store<D> {
    /// The number of the state that is kept, 0 at the start.
    pub fn number(&self) -> u64
        ensures { result ≡ saved_number self.now }
    {
        self.slots.number()
    }

    /// The disk, with what is kept.
    pub fn into_disk(self) -> D
        ensures { result ≡ disk_of self }
    {
        let Store { slots, entry: _ } = self;
        slots.into_disk()
    }

    /// Saves a state under the next number. It takes no memory. Where a call of the disk fails, the store is spent: it is
    /// opened again from the disk that comes back.
    pub fn save(self, state: &PlantState) -> Result<Store<D>, SaveFault<D>>
        requires { IsStoreOf D.size D.contents D.may_leave state.now.plant self }
        // Once this is Ok, the store stands for the new state, and so does all that a crash may leave.
        ensures stands { IfOk result (λ store. IfSome (D.contents (disk_of store))
            (StandsFor state.now.plant state.now (saved_number store))) }
        ensures lasts { IfOk result (λ store. (c : List ℕ) → D.may_leave (disk_of store) c
            → StandsFor state.now.plant state.now (saved_number store) c) }
        ensures number { IfOk result (λ store. saved_number store ≡ saved_number self + 1) }
        ensures store { IfOk result
            (IsStoreOf D.size D.contents D.may_leave state.now.plant) }

        // A crash at any moment of the call leaves the state that the store stood for before it, or the new one.
        ensures any_moment { (before : State)
            → IfSome (D.contents (disk_of self))
            (StandsFor state.now.plant before (saved_number self))
            → LeavesOnly D.moment D.left_since (disk_of self) (disk_saved result)
            (StandsForEither state.now.plant before (saved_number self) state.now) }
        ensures full { TellsFull self result }
        ensures size { D.size (disk_saved result) ≡ D.size (disk_of self) }
        ensures name { D.name (disk_saved result) ≡ D.name (disk_of self) }
        ensures count { D.faults (disk_saved result)
            ≡ count_after (save_failed result) (D.faults (disk_of self)) }
    {
        if self.slots.number() >= NUMBER_LIMIT {
            return Err(SaveFault::Full(self));
        }
        let Store { slots, entry } = self;
        let mut entry = entry;
        put_entry(slots.number() + 1, state, &mut entry);
        match slots.save(&entry) {
            Ok(slots) => Ok(Store { slots, entry }),
            Err(disk) => Err(SaveFault::Failed(disk)),
        }
    }
}
