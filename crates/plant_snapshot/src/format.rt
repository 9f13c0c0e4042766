//! A disk made a store that stands for the start.

ghost use Rattle.std.specs.Prelude.{◌≡◌, ◌≤◌, true, ℕ, List, IfOk, IfErr, IfSome, is_err};
ghost use Rattle.ctl_io.specs.Crash.{LeavesOnly};
ghost use Rattle.ctl_io.specs.Faults.{count_after};
ghost use Rattle.state_store.specs.Steps.{ShowsStep, TearsGates, IsTornFrom};
ghost use Rattle.plant_core.specs.State.{start};
ghost use Rattle.plant_snapshot.specs.StandsFor.{entry_size, store_size, StandsFor};
ghost use Rattle.plant_snapshot.specs.Answers.{disk_formatted, says_failed};

use crate::fault::SaveFault;
use crate::size::entry_size;
use ctl_io::{Did, Disk};
use plant_config::Plant;
use state_store::format;

/// Makes a disk the store of a plant that stands for the start, with number 0: it closes both gates, and writes no other byte.
pub fn format_store<D: Disk>(plant: &Plant, disk: D) -> Result<D, SaveFault<D>>
    requires { store_size plant.now ≤ D.size disk }
    ensures start { IfOk result (λ disk. IfSome (D.contents disk)
        (StandsFor plant.now (start plant.now) 0)) }
    ensures lasts { IfOk result (λ disk. (c : List ℕ) → D.may_leave disk c
        → StandsFor plant.now (start plant.now) 0 c) }
    ensures others { IfOk result (λ new. ShowsStep (TearsGates (entry_size plant.now))
        (D.contents disk) (D.contents new)) }
    ensures fault { IfErr result (λ fault. says_failed fault ≡ true) }

    // A crash at any moment of the call leaves what it might have before, but for the gates.
    ensures any_moment { LeavesOnly D.moment D.left_since disk (disk_formatted result)
        (IsTornFrom (entry_size plant.now) (D.may_leave disk)) }
    ensures size { D.size (disk_formatted result) ≡ D.size disk }
    ensures name { D.name (disk_formatted result) ≡ D.name disk }
    ensures count { D.faults (disk_formatted result)
        ≡ count_after (is_err result) (D.faults disk) }
{
    let mut disk = disk;
    match format(&mut disk, entry_size(plant) as u64) {
        Did::Done => Ok(disk),
        Did::Failed => Err(SaveFault::Failed(disk)),
    }
}
