//! The devices of a plant file and their buses, grouped by device.

ghost use Rattle.std.specs.Prelude.{◌≡◌, ◌≤◌, ◌++◌, bytes_eq, length, IfOk, is_ok, OnOk};
ghost use Rattle.std.specs.Option.{option_map};
ghost use Rattle.plant_config.specs.PlantOfFile.{named_buses, switch_in, device_buses};
ghost use Rattle.plant_config.specs.PlantOfFile.{devices_in, buses_in};
ghost use Rattle.plant_config.specs.OfFileInside.{AreLow};

use super::lookups::{dest_number, source_number};
use crate::numbers::{DestId, DeviceId};
use crate::records::{Bus, Device, Level};
use plant_file::{BusEntry, DeviceEntry, Name};
use std::alloc::{AllocError, Global};

// Whether two names are the same.
fn is_same(one: &Name, other: &Name) -> bool
    ensures { result ≡ bytes_eq one.now other.now }
{
    one.as_bytes() == other.as_bytes()
}

// How many buses a device has.
fn bus_count(buses: &[BusEntry], device: &DeviceEntry) -> u32
    requires { length buses.now ≤ 1024 }
    ensures count { result ≡ length (named_buses buses.now device.now) }
    ensures few { result ≤ 1024 }
{
    let count = buses
        .iter()
        .filter(|bus| is_same(&bus.device, &device.name))
        .count();
    count as u32
}

/// The devices.
pub fn devices(
    alloc: Global,
    levels: &[Level],
    devices: &[DeviceEntry],
    buses: &[BusEntry],
) -> Result<Vec<Device>, AllocError>
    requires low { AreLow levels.now }
    requires few_devices { length devices.now ≤ 64 }
    requires few_buses { length buses.now ≤ 1024 }
    ensures { IfOk result
        (λ made. made.items ≡ devices_in levels.now devices.now buses.now) }
{
    let mut made = Vec::new(alloc);
    let mut first_bus = 0;
    for device in devices {
        let count = bus_count(buses, device);
        made.push(Device {
            output: source_number(levels, device.matrix, 0, device.source),
            first_bus,
            buses: count,
        })?;
        first_bus += count;
    }
    Ok(made)
}

// The switch of a bus, where it has one.
fn switch_of(levels: &[Level], bus: &BusEntry) -> Option<DestId>
    requires { AreLow levels.now }
    ensures { result ≡ option_map (switch_in levels.now) bus.now.switch }
{
    match bus.switch {
        Some(switch) => Some(dest_number(levels, switch.matrix, switch.level, switch.destination)),
        None => None,
    }
}

// Adds the buses of a device.
fn add_buses(
    levels: &[Level],
    buses: &[BusEntry],
    number: DeviceId,
    device: &DeviceEntry,
    made: &mut Vec<Bus>,
) -> Result<(), AllocError>
    requires { AreLow levels.now }
    ensures { OnOk result
        (made.new.items ≡ made.old.items ++ device_buses levels.now buses.now number device.now) }
{
    for bus in buses {
        if is_same(&bus.device, &device.name) {
            made.push(Bus {
                device: number,
                dest: dest_number(levels, bus.matrix, 0, bus.destination),
                switch: switch_of(levels, bus),
            })?;
        }
    }
    Ok(())
}

/// The buses, those of one device together.
pub fn buses(
    alloc: Global,
    levels: &[Level],
    devices: &[DeviceEntry],
    buses: &[BusEntry],
) -> Result<Vec<Bus>, AllocError>
    requires low { AreLow levels.now }
    requires few_devices { length devices.now ≤ 64 }
    ensures { IfOk result
        (λ made. made.items ≡ buses_in levels.now devices.now buses.now) }
{
    let mut made = Vec::new(alloc);
    for (number, device) in devices.iter().enumerate() {
        add_buses(
            levels,
            buses,
            DeviceId::of(number as u32),
            device,
            &mut made,
        )?;
    }
    Ok(made)
}
