//! A plant file that was read.

ghost use Rattle.std.specs.Prelude.{◌≡◌};

use crate::entries::{
    BusEntry, DeviceEntry, DisplayEntry, PanelEntry, PoolEntry, RemoteEntry, RootEntry, Server,
};
use crate::level::LevelEntry;
use crate::text::Text;
use std::marker::Model;

/// What a plant file says, each section in the order of the file.
#[derive(Debug, Drop)]
pub struct PlantFile {
    pub(crate) title: Text,
    pub(crate) server: Server,
    pub(crate) levels: Vec<LevelEntry>,
    pub(crate) remotes: Vec<RemoteEntry>,
    pub(crate) pools: Vec<PoolEntry>,
    pub(crate) devices: Vec<DeviceEntry>,
    pub(crate) buses: Vec<BusEntry>,
    pub(crate) air: Vec<RootEntry>,
    pub(crate) preview: Vec<RootEntry>,
    pub(crate) displays: Vec<DisplayEntry>,
    pub(crate) panels: Vec<PanelEntry>,
}

impl Model for PlantFile {
    ghost use Rattle.plant_file.specs.FileData.{FileData};

    ghost Value = { FileData };

    ghost view = { λ file. record {
      title = file.title;
      server = file.server;
      levels = file.levels.items;
      remotes = file.remotes.items;
      pools = file.pools.items;
      devices = file.devices.items;
      buses = file.buses.items;
      air = file.air.items;
      preview = file.preview.items;
      displays = file.displays.items;
      panels = file.panels.items;
    } };
}

impl PlantFile {
    /// The plant's title, 1 to 40 printable bytes.
    pub fn title(&self) -> &Text
        ensures { result.now ≡ self.now.title }
    {
        &self.title
    }

    /// How the plant is served.
    pub fn server(&self) -> &Server
        ensures { result.now ≡ self.now.server }
    {
        &self.server
    }

    /// The levels.
    pub fn levels(&self) -> &[LevelEntry]
        ensures { result.now ≡ self.now.levels }
    {
        self.levels.as_slice()
    }

    /// The remote sources.
    pub fn remotes(&self) -> &[RemoteEntry]
        ensures { result.now ≡ self.now.remotes }
    {
        self.remotes.as_slice()
    }

    /// The pools of tie-lines.
    pub fn pools(&self) -> &[PoolEntry]
        ensures { result.now ≡ self.now.pools }
    {
        self.pools.as_slice()
    }

    /// The devices.
    pub fn devices(&self) -> &[DeviceEntry]
        ensures { result.now ≡ self.now.devices }
    {
        self.devices.as_slice()
    }

    /// The buses.
    pub fn buses(&self) -> &[BusEntry]
        ensures { result.now ≡ self.now.buses }
    {
        self.buses.as_slice()
    }

    /// The destinations that are on air.
    pub fn air(&self) -> &[RootEntry]
        ensures { result.now ≡ self.now.air }
    {
        self.air.as_slice()
    }

    /// The destinations that are on preview.
    pub fn preview(&self) -> &[RootEntry]
        ensures { result.now ≡ self.now.preview }
    {
        self.preview.as_slice()
    }

    /// The displays.
    pub fn displays(&self) -> &[DisplayEntry]
        ensures { result.now ≡ self.now.displays }
    {
        self.displays.as_slice()
    }

    /// The panels.
    pub fn panels(&self) -> &[PanelEntry]
        ensures { result.now ≡ self.now.panels }
    {
        self.panels.as_slice()
    }
}
