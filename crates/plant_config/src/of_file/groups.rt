//! The groups of a plant's parts, of its file.

ghost use Rattle.std.specs.Prelude.{◌≡◌, All, IfOk};
ghost use Rattle.plant_rules.specs.IsFile.{IsFile};
ghost use Rattle.plant_config.specs.PartsInside.{HasRouting, HasMixing, HasService};
ghost use Rattle.plant_config.specs.PlantOfFile.{plant_of_file, in_order, levels_of};
ghost use Rattle.plant_config.specs.OfFileInside.{AreLow, HasFewSources, shown};

use super::{devices, levels, parts, sources};
use crate::displays::Displays;
use crate::levels::Levels;
use crate::parts::{Mixing, Routing, Service};
use crate::pools::Pools;
use crate::records::Level;
use plant_file::{LevelEntry, PlantFile};
use std::alloc::{AllocError, Global};

/// What the routers have.
pub fn routing(alloc: Global, file: &PlantFile) -> Result<Routing, AllocError>
    requires { IsFile file.now }
    ensures { IfOk result (HasRouting (plant_of_file file.now)) }
{
    let ordered = levels::in_order(alloc, file.levels())?;
    let levels = levels::levels_of(alloc, file.levels(), ordered.as_slice())?;
    routing_of(alloc, file, ordered.as_slice(), levels)
}

// What the routers have, by the levels in order and as they are in the plant.
fn routing_of(
    alloc: Global,
    file: &PlantFile,
    ordered: &[&LevelEntry],
    levels: Vec<Level>,
) -> Result<Routing, AllocError>
    requires file { IsFile file.now }
    requires ordered { shown ordered.now ≡ in_order file.now.levels }
    requires numbered { levels.items ≡ levels_of file.now }
    requires low { AreLow levels.items }
    requires few { All HasFewSources (shown ordered.now) }
    ensures { IfOk result (HasRouting (plant_of_file file.now)) }
{
    Ok(Routing {
        sources: sources::sources(alloc, file, levels.as_slice(), ordered)?,
        dest_names: levels::dest_names(alloc, ordered)?,
        pools: Pools::of(parts::pools(alloc, file.pools())?),
        levels: Levels::of(alloc, levels)?,
    })
}

/// What the mixers have, by the levels of the plant.
pub fn mixing(alloc: Global, file: &PlantFile, levels: &[Level]) -> Result<Mixing, AllocError>
    requires file { IsFile file.now }
    requires numbered { levels.now ≡ levels_of file.now }
    requires low { AreLow levels.now }
    ensures { IfOk result (HasMixing (plant_of_file file.now)) }
{
    let (devices, buses) = (file.devices(), file.buses());
    Ok(Mixing {
        devices: devices::devices(alloc, levels, devices, buses)?,
        buses: devices::buses(alloc, levels, devices, buses)?,
        air: parts::roots(alloc, levels, file.air())?,
        preview: parts::roots(alloc, levels, file.preview())?,
    })
}

/// How the plant is served, by its levels.
pub fn service(alloc: Global, file: &PlantFile, levels: &[Level]) -> Result<Service, AllocError>
    requires file { IsFile file.now }
    requires numbered { levels.now ≡ levels_of file.now }
    requires low { AreLow levels.now }
    ensures { IfOk result (HasService (plant_of_file file.now)) }
{
    Ok(Service {
        title: file.title().copy(alloc)?,
        server: file.server().copy(alloc)?,
        displays: Displays::of(alloc, parts::displays(alloc, levels, file.displays())?)?,
        panels: parts::panels(alloc, file.panels())?,
    })
}
