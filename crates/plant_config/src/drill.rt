//! The plant of the drill, by the groups of its parts.

ghost use Rattle.std.specs.Prelude.{◌≡◌, ℕ, ◌+◌, ◌<◌, ◌≤◌, ◌^◌, [], ◌∷◌, ◌++◌, None, IfOk, OnOk};
ghost use Rattle.plant_config.specs.PartsInside.{HasRouting, HasMixing, HasService};
ghost use Rattle.plant_config.specs.DrillPlant.{drill_plant, drill_panel_limit, drill_level};
ghost use Rattle.plant_config.specs.DrillPlant.{local_sources, remote_sources};
ghost use Rattle.plant_config.specs.DrillPlant.{matrix_dest_names, drill_panels};

use crate::displays::Displays;
use crate::levels::Levels;
use crate::numbers::{DestId, DeviceId, PoolId, SourceId};
use crate::parts::{Mixing, Parts, Routing, Service};
use crate::plant::Plant;
use crate::pools::Pools;
use crate::records::{Bus, Device, Level, Panel, Pool, Source};
use plant_file::{Name, Server, Text};
use std::alloc::{AllocError, Global};

impl Plant {
    /// The plant of the drill with 1 to 16 panels: two matrices of 256 by 256 with default names, 64 remote sources with 8
    /// ties, two mixers and no displays.
    pub fn drill(alloc: Global, panels: u32) -> Result<Plant, AllocError>
        requires some { 1 ≤ panels }
        requires most { panels ≤ drill_panel_limit }
        ensures { IfOk result (λ plant. plant ≡ drill_plant panels) }
    {
        let parts = Parts {
            routing: Routing::drill(alloc)?,
            mixing: Mixing::drill(alloc)?,
            service: Service::drill(alloc, panels)?,
        };
        Ok(Plant {
            parts: Box::new(alloc, parts)?,
        })
    }
}

impl Routing {
    // That of the drill's plant, whatever its panels are.
    #[tactic(auto, unfolding(crate::specs::DrillPlant::drill_plant))]
    fn drill(alloc: Global) -> Result<Routing, AllocError>
        ensures { (panels : ℕ) → IfOk result (HasRouting (drill_plant panels)) }
    {
        let pool = Pool {
            from: 0,
            to: 1,
            level: 0,
            ties: 8,
            reserve: 0,
        };
        Ok(Routing {
            levels: Levels::of(alloc, [level(0), level(1)].to_vec(alloc)?)?,
            sources: sources(alloc)?,
            dest_names: dest_names(alloc)?,
            pools: Pools::of([pool].to_vec(alloc)?),
        })
    }
}

impl Mixing {
    // That of the drill's plant, whatever its panels are.
    #[tactic(auto, unfolding(crate::specs::DrillPlant::drill_plant))]
    fn drill(alloc: Global) -> Result<Mixing, AllocError>
        ensures { (panels : ℕ) → IfOk result (HasMixing (drill_plant panels)) }
    {
        let devices = [mixer(250, 0), mixer(251, 1)];
        let buses = [bus(0, 250), bus(1, 251)];
        Ok(Mixing {
            devices: devices.to_vec(alloc)?,
            buses: buses.to_vec(alloc)?,
            air: [DestId::of(0)].to_vec(alloc)?,
            preview: Vec::new(alloc),
        })
    }
}

impl Service {
    // That of the drill's plant with so many panels.
    #[tactic(auto, unfolding(crate::specs::DrillPlant::drill_plant))]
    fn drill(alloc: Global, panels: u32) -> Result<Service, AllocError>
        requires { panels ≤ drill_panel_limit }
        ensures { IfOk result (HasService (drill_plant panels)) }
    {
        Ok(Service {
            title: Text::of(alloc, "Drill")?,
            server: Server::given(alloc)?,
            displays: Displays::of(alloc, Vec::new(alloc))?,
            panels: panels_of(alloc, panels)?,
        })
    }
}

// A mixer with the output of this number and one bus.
fn mixer(output: u32, bus: u32) -> Device
    ensures { result ≡ record { output = output; first_bus = bus; buses = 1 } }
{
    Device {
        output: SourceId::of(output),
        first_bus: bus,
        buses: 1,
    }
}

// A bus of a mixer, the destination of this number, which is always on.
fn bus(device: u32, dest: u32) -> Bus
    ensures { result ≡ record { device = device; dest = dest; switch = None } }
{
    Bus {
        device: DeviceId::of(device),
        dest: DestId::of(dest),
        switch: None,
    }
}

// Level 0 of a matrix.
fn level(matrix: u8) -> Level
    ensures { result ≡ drill_level matrix }
{
    Level {
        matrix,
        level: 0,
        first_source: 256 * u32::from(matrix),
        sources: 256,
        first_dest: 256 * u32::from(matrix),
        destinations: 256,
    }
}

// The sources of both matrices.
fn sources(alloc: Global) -> Result<Vec<Source>, AllocError>
    ensures { IfOk result (λ made. made.items
        ≡ local_sources 0 256 ++ (local_sources 256 192 ++ remote_sources)) }
{
    let mut sources = Vec::new(alloc);
    add_local(0, 256, &mut sources)?;
    add_local(256, 192, &mut sources)?;
    add_remote(&mut sources)?;
    Ok(sources)
}

// Adds so many local sources of a level, whose first one has this number in the whole plant.
fn add_local(first: u32, count: u16, sources: &mut Vec<Source>) -> Result<(), AllocError>
    requires { first + count < 2 ^ 32 }
    ensures { OnOk result (sources.new.items ≡ sources.old.items ++ local_sources first count) }
{
    for number in 0..count {
        sources.push(Source {
            name: Name::numbered(b'S', number),
            origin: SourceId::of(first + u32::from(number)),
            pool: None,
        })?;
    }
    Ok(())
}

// Adds the remote sources.
fn add_remote(sources: &mut Vec<Source>) -> Result<(), AllocError>
    ensures { OnOk result (sources.new.items ≡ sources.old.items ++ remote_sources) }
{
    for origin in 0..64u16 {
        sources.push(Source {
            name: Name::numbered(b'S', 192 + origin),
            origin: SourceId::of(u32::from(origin)),
            pool: Some(PoolId::of(0)),
        })?;
    }
    Ok(())
}

// The names of the destinations of both matrices.
fn dest_names(alloc: Global) -> Result<Vec<Name>, AllocError>
    ensures { IfOk result (λ made. made.items ≡ matrix_dest_names ++ matrix_dest_names) }
{
    let mut names = Vec::new(alloc);
    add_dest_names(&mut names)?;
    add_dest_names(&mut names)?;
    Ok(names)
}

// Adds the names of the destinations of one matrix.
fn add_dest_names(names: &mut Vec<Name>) -> Result<(), AllocError>
    ensures { OnOk result (names.new.items ≡ names.old.items ++ matrix_dest_names) }
{
    for number in 0..256u16 {
        names.push(Name::numbered(b'D', number))?;
    }
    Ok(())
}

// So many panels, of which the first one is the master.
fn panels_of(alloc: Global, count: u32) -> Result<Vec<Panel>, AllocError>
    requires { count ≤ drill_panel_limit }
    ensures { IfOk result (λ made. made.items ≡ drill_panels count) }
{
    let mut panels = Vec::new(alloc);
    for number in 0..count {
        panels.push(Panel {
            device: (number + 1) as u16,
            port: (9000 + number) as u16,
            master: number == 0,
        })?;
    }
    Ok(panels)
}
