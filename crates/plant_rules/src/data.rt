//! The first fault of a plant file whose keys are all right.

ghost use Rattle.std.specs.Prelude.{◌≡◌, IfOk};
ghost use Rattle.plant_file.specs.FirstFault.{first_fault};
ghost use Rattle.plant_rules.specs.PlantFile.{data_faults};
ghost use Rattle.plant_file.specs.Ranges.{AreInRange};

use crate::links::link_fault;
use crate::sums::sum_fault;
use crate::twice::twice_fault;
use plant_file::{PlantFault, PlantFile};
use std::alloc::{AllocError, Global};

// What the entries may not be together: the sums of all levels, then what is twice, then what they name.
pub(crate) fn data_fault(alloc: Global, file: &PlantFile) -> Result<Option<PlantFault>, AllocError>
    requires { AreInRange file.now }
    ensures { IfOk result (λ found. found ≡ first_fault (data_faults file.now)) }
{
    if let Some(fault) = sum_fault(file) {
        return Ok(Some(fault));
    }
    if let Some(fault) = twice_fault(alloc, file)? {
        return Ok(Some(fault));
    }
    link_fault(alloc, file)
}
