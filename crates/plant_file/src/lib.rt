//! What a plant file says: the keys of its sections as plain data, what is given where they are absent included. A text
//! whose sections or keys are wrong is refused by their first fault, in one order of the checks, with its place in the file;
//! what entries may not be together is looked at above. Sources and destinations are named by matrix, level and number.
#![tactic(auto)]

mod entries;
mod fault;
mod fault_text;
mod file;
mod laws;
mod level;
mod name;
mod read;
mod text;

pub use entries::{
    BusEntry, DeviceEntry, DisplayEntry, PanelEntry, PoolEntry, RemoteEntry, RootEntry, Server,
    SwitchEntry,
};
pub use fault::{Field, Place, PlantFault, Section};
pub use file::PlantFile;
pub use laws::{faults_of_keys_have_a_place, what_is_read_is_in_range};
pub use level::LevelEntry;
pub use name::{MAX_NAME, Name};
pub use read::read_text;
pub use text::Text;
