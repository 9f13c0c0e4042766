//! The parts of a plant.

use crate::numbers::{DestId, DeviceId, PoolId, SourceId};
use plant_file::Name;

/// One level of one matrix: a router whose destinations carry its own sources.
#[derive(Clone, Copy, Debug, PartialEq, Eq)]
pub struct Level {
    /// 0 to 15.
    pub matrix: u8,
    /// 0 to 15.
    pub level: u8,
    /// The number of its first source in the whole plant.
    pub first_source: u32,
    /// 1 to 65535.
    pub sources: u32,
    /// The number of its first destination in the whole plant.
    pub first_dest: u32,
    /// 1 to 65536.
    pub destinations: u32,
}

/// A source: its name, and where its picture comes from.
#[derive(Clone, Copy, Debug)]
pub struct Source {
    /// Its name, as panels show it.
    pub name: Name,
    /// The local source that it stands for, itself where it is local.
    pub origin: SourceId,
    /// The pool of tie-lines that leads to it, `None` where it is local.
    pub pool: Option<PoolId>,
}

/// A pool of tie-lines that lead from one matrix to another, at one level of both.
#[derive(Clone, Copy, Debug, PartialEq, Eq)]
pub struct Pool {
    /// 0 to 15.
    pub from: u8,
    /// 0 to 15.
    pub to: u8,
    /// 0 to 15.
    pub level: u8,
    /// How many tie-lines it has, 1 to 1024.
    pub ties: u32,
    /// How many of them are kept for masters, at most all.
    pub reserve: u32,
}

/// A device, a mixer say, whose output carries what its buses carry.
#[derive(Clone, Copy, Debug, PartialEq, Eq)]
pub struct Device {
    /// Its output, a local source of level 0.
    pub output: SourceId,
    /// The number of its first bus in the whole plant.
    pub first_bus: u32,
    /// How many buses it has.
    pub buses: u32,
}

/// A bus of a device.
#[derive(Clone, Copy, Debug, PartialEq, Eq)]
pub struct Bus {
    /// Its device.
    pub device: DeviceId,
    /// The destination that it is, of level 0.
    pub dest: DestId,
    /// The destination whose source says whether it is on, `None` where it always is.
    pub switch: Option<DestId>,
}

/// A display of a screen.
#[derive(Clone, Copy, Debug, PartialEq, Eq)]
pub struct Display {
    /// 0 to 65534.
    pub screen: u16,
    /// Its index on the screen, 0 to 65534.
    pub index: u16,
    /// The destination that it watches, of level 0.
    pub watch: DestId,
}

/// One control panel.
#[derive(Clone, Copy, Debug, PartialEq, Eq)]
pub struct Panel {
    /// The device that it acts for, 0 to 1023. Two panels may have the same.
    pub device: u16,
    /// The TCP port on which it is served, 1 to 65535.
    pub port: u16,
    /// Whether it may lift any protect, and use the ties that are kept for masters.
    pub master: bool,
}

/// A destination by its place.
#[derive(Clone, Copy, Debug, PartialEq, Eq)]
pub struct Point {
    /// 0 to 15.
    pub matrix: u8,
    /// 0 to 15.
    pub level: u8,
    /// Its number in the level, 0 to 65535.
    pub dest: u16,
}

/// What a destination is to carry.
#[derive(Clone, Copy, Debug, PartialEq, Eq)]
pub struct Change {
    /// The destination.
    pub dest: DestId,
    /// Its new source, `None` where it is to be parked.
    pub source: Option<SourceId>,
}
