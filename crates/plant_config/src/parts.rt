//! The parts of a plant in three groups: what its routers have, what its mixers have, and how it is served.

ghost use Rattle.std.specs.Prelude.{◌≡◌, IfOk};
ghost use Rattle.plant_config.specs.Plant.{PlantData};
ghost use Rattle.plant_config.specs.Bench.{bench, bench_sources, bench_dest_names};
ghost use Rattle.plant_config.specs.PartsInside.{HasRouting, HasMixing, HasService};

use crate::displays::Displays;
use crate::levels::Levels;
use crate::numbers::{DestId, SourceId};
use crate::pools::Pools;
use crate::records::{Bus, Device, Level, Panel, Source};
use plant_file::{Name, Server, Text};
use std::alloc::{AllocError, Global};

/// The parts of a plant. They are in groups, so that no function has more than a few of them at once.
#[derive(Debug, Drop)]
pub(crate) struct Parts {
    pub(crate) routing: Routing,
    pub(crate) mixing: Mixing,
    pub(crate) service: Service,
}

/// What the routers have: levels, the sources and the destinations of these, and the tie-lines between them.
#[derive(Debug, Drop)]
pub(crate) struct Routing {
    pub(crate) levels: Levels,
    pub(crate) sources: Vec<Source>,
    pub(crate) dest_names: Vec<Name>,
    pub(crate) pools: Pools,
}

/// What the mixers have: devices and their buses, and where the plant's picture goes to air and to preview.
#[derive(Debug, Drop)]
pub(crate) struct Mixing {
    pub(crate) devices: Vec<Device>,
    pub(crate) buses: Vec<Bus>,
    pub(crate) air: Vec<DestId>,
    pub(crate) preview: Vec<DestId>,
}

/// How the plant is served: under which title, from where, and to which displays and panels.
#[derive(Debug, Drop)]
pub(crate) struct Service {
    pub(crate) title: Text,
    pub(crate) server: Server,
    pub(crate) displays: Displays,
    pub(crate) panels: Vec<Panel>,
}

impl Routing {
    /// That of the bench plant.
    #[tactic(auto, unfolding(crate::specs::Bench::bench))]
    pub(crate) fn bench(alloc: Global) -> Result<Routing, AllocError>
        ensures { IfOk result (HasRouting bench) }
    {
        let level = Level {
            matrix: 0,
            level: 0,
            first_source: 0,
            sources: 32,
            first_dest: 0,
            destinations: 32,
        };
        Ok(Routing {
            levels: Levels::of(alloc, [level].to_vec(alloc)?)?,
            sources: bench_sources(alloc)?,
            dest_names: bench_dest_names(alloc)?,
            pools: Pools::of(Vec::new(alloc)),
        })
    }

    /// An equal one, of the same plant.
    pub(crate) fn copy(&self, alloc: Global) -> Result<Routing, AllocError>
        ensures { (plant : PlantData) → HasRouting plant self.now
            → IfOk result (HasRouting plant) }
    {
        Ok(Routing {
            levels: self.levels.copy(alloc)?,
            sources: self.sources.as_slice().to_vec(alloc)?,
            dest_names: self.dest_names.as_slice().to_vec(alloc)?,
            pools: self.pools.copy(alloc)?,
        })
    }
}

impl Mixing {
    /// That of the bench plant, which has no mixers.
    #[tactic(auto, unfolding(crate::specs::Bench::bench))]
    pub(crate) fn bench(alloc: Global) -> Mixing
        ensures { HasMixing bench result }
    {
        Mixing {
            devices: Vec::new(alloc),
            buses: Vec::new(alloc),
            air: Vec::new(alloc),
            preview: Vec::new(alloc),
        }
    }

    /// An equal one, of the same plant.
    pub(crate) fn copy(&self, alloc: Global) -> Result<Mixing, AllocError>
        ensures { (plant : PlantData) → HasMixing plant self.now
            → IfOk result (HasMixing plant) }
    {
        Ok(Mixing {
            devices: self.devices.as_slice().to_vec(alloc)?,
            buses: self.buses.as_slice().to_vec(alloc)?,
            air: self.air.as_slice().to_vec(alloc)?,
            preview: self.preview.as_slice().to_vec(alloc)?,
        })
    }
}

impl Service {
    /// That of the bench plant.
    #[tactic(auto, unfolding(crate::specs::Bench::bench))]
    pub(crate) fn bench(alloc: Global) -> Result<Service, AllocError>
        ensures { IfOk result (HasService bench) }
    {
        let panel = Panel {
            device: 1,
            port: 9001,
            master: false,
        };
        let master = Panel {
            device: 2,
            port: 9002,
            master: true,
        };
        Ok(Service {
            title: Text::of(alloc, "Bench")?,
            server: Server::given(alloc)?,
            displays: Displays::of(alloc, Vec::new(alloc))?,
            panels: [panel, master].to_vec(alloc)?,
        })
    }

    /// An equal one, of the same plant.
    pub(crate) fn copy(&self, alloc: Global) -> Result<Service, AllocError>
        ensures { (plant : PlantData) → HasService plant self.now
            → IfOk result (HasService plant) }
    {
        Ok(Service {
            title: self.title.copy(alloc)?,
            server: self.server.copy(alloc)?,
            displays: self.displays.copy(alloc)?,
            panels: self.panels.as_slice().to_vec(alloc)?,
        })
    }
}

// The sources of the bench plant, all local and with default names.
fn bench_sources(alloc: Global) -> Result<Vec<Source>, AllocError>
    ensures { IfOk result (λ made. made.items ≡ bench_sources) }
{
    let mut sources = Vec::new(alloc);
    for number in 0..32u16 {
        sources.push(Source {
            name: Name::numbered(b'S', number),
            origin: SourceId::of(u32::from(number)),
            pool: None,
        })?;
    }
    Ok(sources)
}

// The names of the bench plant's destinations.
fn bench_dest_names(alloc: Global) -> Result<Vec<Name>, AllocError>
    ensures { IfOk result (λ made. made.items ≡ bench_dest_names) }
{
    let mut names = Vec::new(alloc);
    for number in 0..32u16 {
        names.push(Name::numbered(b'D', number))?;
    }
    Ok(names)
}
