//! What a plant is: its levels with their sources and destinations, and its panels, by typed numbers. A plant never
//! changes. It is seen as plain data, by the same definitions that the crates above use.
#![tactic(auto)]

mod displays;
mod drill;
mod laws;
mod levels;
mod limits;
mod numbers;
mod of_file;
mod parts;
mod plant;
mod pools;
mod readers;
mod records;

pub use laws::{
    buses_differ, dests_are_numbered, drills_are_plants, limits_are_those_of_the_profile,
    origins_are_local, pools_lead_across, screens_are_of_displays, sources_are_numbered,
    the_bench_is_a_plant, the_bench_is_in_its_file,
};
pub use limits::{LEVELS_OF_A_MATRIX, MATRICES, MAX_DESTINATIONS, MAX_SOURCES};
pub use numbers::{BusId, DestId, DeviceId, DisplayId, Number, PanelNo, PoolId, SourceId, TieNo};
pub use plant::Plant;
pub use plant_file::{Field, Name, Place, PlantFault, Section, Server, Text};
pub use records::{Bus, Change, Device, Display, Level, Panel, Point, Pool, Source};
