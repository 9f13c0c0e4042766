//! The section of each type of entry.

ghost use Rattle.std.specs.Prelude.{refl};
ghost use Rattle.plant_file.specs.Format.{remote_keys, pool_keys, device_keys, bus_keys};
ghost use Rattle.plant_file.specs.Format.{root_keys, display_keys, panel_keys};
ghost use Rattle.plant_file.specs.Reading.{remote_entry, pool_entry, device_entry, bus_entry};
ghost use Rattle.plant_file.specs.Reading.{root_entry, display_entry, panel_entry};
ghost use Rattle.plant_file.specs.ReadingInside.{keys_at};

use crate::entries::{
    BusEntry, DeviceEntry, DisplayEntry, PanelEntry, PoolEntry, RemoteEntry, RootEntry,
};
use crate::fault::PlantFault;
use crate::read::entries::{
    read_bus, read_device, read_display, read_panel, read_pool, read_remote, read_root,
};
use crate::read::entry::Entry;
use crate::read::section::ReadEntry;
use std::alloc::Global;

impl ReadEntry for RemoteEntry {
    ghost keys = { keys_at remote_keys };

    ghost said = { λ _. remote_entry };

    ghost named = { λ _. refl };

    fn read(_alloc: Global, entry: &Entry) -> Result<Self, PlantFault> {
        read_remote(entry)
    }
}

impl ReadEntry for PoolEntry {
    ghost keys = { keys_at pool_keys };

    ghost said = { λ _. pool_entry };

    ghost named = { λ _. refl };

    fn read(_alloc: Global, entry: &Entry) -> Result<Self, PlantFault> {
        read_pool(entry)
    }
}

impl ReadEntry for DeviceEntry {
    ghost keys = { keys_at device_keys };

    ghost said = { λ _. device_entry };

    ghost named = { λ _. refl };

    fn read(_alloc: Global, entry: &Entry) -> Result<Self, PlantFault> {
        read_device(entry)
    }
}

impl ReadEntry for BusEntry {
    ghost keys = { keys_at bus_keys };

    ghost said = { λ _. bus_entry };

    ghost named = { λ _. refl };

    fn read(_alloc: Global, entry: &Entry) -> Result<Self, PlantFault> {
        read_bus(entry)
    }
}

impl ReadEntry for RootEntry {
    ghost keys = { root_keys };

    ghost said = { root_entry };

    ghost named = { λ _. refl };

    fn read(_alloc: Global, entry: &Entry) -> Result<Self, PlantFault> {
        read_root(entry)
    }
}

impl ReadEntry for DisplayEntry {
    ghost keys = { keys_at display_keys };

    ghost said = { λ _. display_entry };

    ghost named = { λ _. refl };

    fn read(_alloc: Global, entry: &Entry) -> Result<Self, PlantFault> {
        read_display(entry)
    }
}

impl ReadEntry for PanelEntry {
    ghost keys = { keys_at panel_keys };

    ghost said = { λ _. panel_entry };

    ghost named = { λ _. refl };

    fn read(_alloc: Global, entry: &Entry) -> Result<Self, PlantFault> {
        read_panel(entry)
    }
}
