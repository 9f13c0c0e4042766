//! The entries of a plant file's sections, by this project's profile.

ghost use Rattle.std.specs.Prelude.{◌≡◌, IfOk};

use crate::name::Name;
use crate::text::Text;
use std::alloc::{AllocError, Global};

/// How the plant is served. Times are in milliseconds.
#[derive(Debug, Drop)]
pub struct Server {
    /// The address at which panels are served, 1 to 64 printable bytes.
    pub listen: Text,
    /// The address to which displays are sent, 1 to 64 printable bytes.
    pub display: Text,
    /// How long a link may be silent before it is idle, 1 to 60000.
    pub idle_ms: u32,
    /// How many idle reads in a row end a session, 1 to 1000000.
    pub idle_limit: u32,
    /// How many turns a session has at most, 1 to 1099511627776.
    pub turns: u64,
    /// How many sessions a panel has at most, 1 to 1000000.
    pub sessions: u32,
    /// After how many rounds of the displays all of them are sent anew, 0 to 65535; 0 is never.
    pub refresh_every: u32,
    /// The brightness of the displays, 0 to 3.
    pub brightness: u8,
}

impl Server {
    ghost use Rattle.plant_file.specs.Reading.{default_server};

    /// How a plant is served whose file doesn't say it.
    pub fn given(alloc: Global) -> Result<Server, AllocError>
        ensures { IfOk result (λ server. server ≡ default_server) }
    {
        Ok(Server {
            listen: Text::of(alloc, "127.0.0.1")?,
            display: Text::of(alloc, "127.0.0.1:8901")?,
            idle_ms: 100,
            idle_limit: 1_000_000,
            turns: 1 << 40,
            sessions: 1_000_000,
            refresh_every: 0,
            brightness: 3,
        })
    }

    /// An equal server.
    pub fn copy(&self, alloc: Global) -> Result<Server, AllocError>
        ensures { IfOk result (λ server. server ≡ self.now) }
    {
        Ok(Server {
            listen: self.listen.copy(alloc)?,
            display: self.display.copy(alloc)?,
            idle_ms: self.idle_ms,
            idle_limit: self.idle_limit,
            turns: self.turns,
            sessions: self.sessions,
            refresh_every: self.refresh_every,
            brightness: self.brightness,
        })
    }
}

/// A remote source: a source of a level that stands for a source of another matrix, at the same level.
#[derive(Clone, Copy, Debug, PartialEq, Eq)]
pub struct RemoteEntry {
    /// Its matrix, 0 to 15.
    pub matrix: u8,
    /// Its level, 0 to 15.
    pub level: u8,
    /// Its number in the level, 0 to 65534.
    pub source: u16,
    /// The other matrix, 0 to 15.
    pub from: u8,
    /// The number of the source that it stands for, 0 to 65534.
    pub from_source: u16,
}

/// A pool of tie-lines that lead from one matrix to another, at one level of both.
#[derive(Clone, Copy, Debug, PartialEq, Eq)]
pub struct PoolEntry {
    /// 0 to 15.
    pub from: u8,
    /// 0 to 15.
    pub to: u8,
    /// 0 to 15.
    pub level: u8,
    /// How many tie-lines it has, 1 to 1024.
    pub ties: u32,
    /// How many of them are kept for masters, at most all.
    pub reserve: u32,
}

/// A device, a mixer say, whose output is a source of level 0.
#[derive(Clone, Copy, Debug)]
pub struct DeviceEntry {
    /// Its name.
    pub name: Name,
    /// The matrix of its output, 0 to 15.
    pub matrix: u8,
    /// The source that is its output, 0 to 65534.
    pub source: u16,
}

/// A destination of a level other than 0, whose source says whether a bus is on.
#[derive(Clone, Copy, Debug, PartialEq, Eq)]
pub struct SwitchEntry {
    /// 0 to 15.
    pub matrix: u8,
    /// 1 to 15.
    pub level: u8,
    /// 0 to 65535.
    pub destination: u16,
}

/// A bus of a device: a destination of level 0.
#[derive(Clone, Copy, Debug)]
pub struct BusEntry {
    /// The name of its device.
    pub device: Name,
    /// 0 to 15.
    pub matrix: u8,
    /// 0 to 65535.
    pub destination: u16,
    /// Its switch, `None` where it is always on.
    pub switch: Option<SwitchEntry>,
}

/// A destination of level 0 that is on air, or on preview.
#[derive(Clone, Copy, Debug, PartialEq, Eq)]
pub struct RootEntry {
    /// 0 to 15.
    pub matrix: u8,
    /// 0 to 65535.
    pub destination: u16,
}

/// A display of a screen, over a destination of level 0.
#[derive(Clone, Copy, Debug, PartialEq, Eq)]
pub struct DisplayEntry {
    /// 0 to 65534.
    pub screen: u16,
    /// Its index on the screen, 0 to 65534.
    pub index: u16,
    /// 0 to 15.
    pub matrix: u8,
    /// 0 to 65535.
    pub destination: u16,
}

/// A control panel.
#[derive(Clone, Copy, Debug, PartialEq, Eq)]
pub struct PanelEntry {
    /// The device that it acts for, 0 to 1023.
    pub device: u16,
    /// The TCP port at which it is served, 1 to 65535.
    pub port: u16,
    /// Whether it may lift any protect.
    pub master: bool,
}
