//! The plant of a plant file.

ghost use Rattle.std.specs.Prelude.{◌≡◌, IfOk};
ghost use Rattle.plant_file.specs.FirstFault.{Answers};
ghost use Rattle.plant_rules.specs.IsFile.{IsFile};
ghost use Rattle.plant_config.specs.PlantOfFile.{plant_of_file};
ghost use Rattle.plant_config.specs.PlantOfText.{plant_of_text};

mod devices;
mod groups;
mod levels;
mod lookups;
mod parts;
mod remotes;
mod sources;

use crate::parts::Parts;
use crate::plant::Plant;
use plant_file::{PlantFault, PlantFile};
use std::alloc::{AllocError, Global};

impl Plant {
    /// The plant of a plant file's text, or the first fault of the text in the order of the checks: a TOML document with
    /// the sections and keys of this project's profile.
    pub fn from_toml(alloc: Global, text: &[u8]) -> Result<Plant, PlantFault>
        ensures { Answers result (plant_of_text text.now) }
    {
        let file = plant_rules::read(alloc, text)?;
        Ok(Plant::of_file(alloc, &file)?)
    }

    /// The plant of a file without a fault.
    pub fn of_file(alloc: Global, file: &PlantFile) -> Result<Plant, AllocError>
        requires { IsFile file.now }
        ensures { IfOk result (λ plant. plant ≡ plant_of_file file.now) }
    {
        let routing = groups::routing(alloc, file)?;
        let levels = routing.levels.as_slice();
        let mixing = groups::mixing(alloc, file, levels)?;
        let service = groups::service(alloc, file, levels)?;
        let parts = Parts {
            routing,
            mixing,
            service,
        };
        Ok(Plant {
            parts: Box::new(alloc, parts)?,
        })
    }
}
