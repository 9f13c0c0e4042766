//! The buses and devices of a plant, and the tables by which they are found.

ghost use Rattle.std.specs.Prelude.{◌≡◌, ◌+◌, ◌<◌, ◌++◌, length, slice_get, IfOk, OnOk};
ghost use Rattle.std.specs.FinMap.{get};
ghost use Rattle.plant_config.specs.Plant.{destinations_of, sources_of};
ghost use Rattle.mixer_effects.specs.Wiring.{IsWiringOf, bus_at_dest, switched_in, is_on_by};
ghost use Rattle.mixer_effects.specs.WiringInside.{HaveNumbersBelow, HaveBusesFrom};
ghost use Rattle.mixer_effects.specs.WiringInside.{HaveDevicesFrom};
ghost use Rattle.mixer_effects.specs.WiringInside.{AreSpansBelow, switched_among};

use crate::span::Span;
use number_tables::NumberMap;
use plant_config::{Bus, BusId, DestId, Device, DeviceId, Plant, SourceId};
use std::alloc::{AllocError, Global};
use std::marker::Model;

/// The buses and devices of a plant, and by which tables they are found. Only a graph reads them.
#[derive(Debug, Drop)]
pub struct Mixers {
    /// The devices.
    devices: Vec<Device>,
    /// The buses.
    buses: Vec<Bus>,
    /// By source, its number in its level.
    number_by_source: NumberMap<u16>,
    /// By destination, the bus that it is.
    bus_by_dest: NumberMap<BusId>,
    /// By source, the device whose output it is.
    device_by_output: NumberMap<DeviceId>,
    /// By destination, where the buses that it switches stand.
    span_by_switch: NumberMap<Span>,
    /// The buses that have a switch: those of one switch stand together.
    switched: Vec<DestId>,
}

impl Model for Mixers {
    ghost use Rattle.mixer_effects.specs.Wiring.{Wiring, code};

    ghost Value = { Wiring };

    ghost coded = { code };

    ghost view = { λ mixers. record {
      devices = mixers.devices.items;
      buses = mixers.buses.items;
      number_by_source = mixers.number_by_source.entries;
      bus_by_dest = mixers.bus_by_dest.entries;
      device_by_output = mixers.device_by_output.entries;
      span_by_switch = mixers.span_by_switch.entries;
      switched = mixers.switched.items;
    } };
}

impl Mixers {
    /// The tables of a plant.
    pub fn new(alloc: Global, plant: &Plant) -> Result<Mixers, AllocError>
        ensures { IfOk result (IsWiringOf plant.now) }
    {
        let devices = plant.devices().to_vec(alloc)?;
        let buses = plant.buses().to_vec(alloc)?;
        let number_by_source = numbers_by_source(alloc, plant)?;
        let bus_by_dest = buses_by_dest(alloc, plant)?;
        let device_by_output = devices_by_output(alloc, plant)?;
        let mut span_by_switch = NumberMap::new(alloc, plant.destination_count() as usize)?;
        let mut switched = Vec::new(alloc);
        for number in 0..plant.buses().len() {
            put_switch(plant, number, &mut span_by_switch, &mut switched)?;
        }
        Ok(Mixers {
            devices,
            buses,
            number_by_source,
            bus_by_dest,
            device_by_output,
            span_by_switch,
            switched,
        })
    }

    // A device by its number.
    pub(crate) fn device(&self, device: DeviceId) -> Option<Device>
        ensures { result ≡ slice_get self.now.devices device }
    {
        self.devices.get(device.get() as usize).copied()
    }

    // A bus by its number.
    pub(crate) fn bus(&self, number: usize) -> Option<Bus>
        ensures { result ≡ slice_get self.now.buses number }
    {
        self.buses.get(number).copied()
    }

    // The bus that a destination is.
    pub(crate) fn bus_at(&self, dest: DestId) -> Option<Bus>
        ensures { result ≡ bus_at_dest self.now dest }
    {
        let number = self.bus_by_dest.get(dest.get())?;
        self.bus(number.get() as usize)
    }

    // The device whose output a source is.
    pub(crate) fn fed_device(&self, source: SourceId) -> Option<DeviceId>
        ensures { result ≡ get self.now.device_by_output source }
    {
        self.device_by_output.get(source.get())
    }

    // Whether a switch is on that carries this source. It is off by one that the plant hasn't.
    pub(crate) fn is_on_by(&self, source: SourceId) -> bool
        ensures { result ≡ is_on_by self.now source }
    {
        match self.number_by_source.get(source.get()) {
            Some(number) => number != 0,
            None => false,
        }
    }

    // The bus of this place among those that a destination switches.
    pub(crate) fn switched(&self, dest: DestId, place: u32) -> Option<DestId>
        ensures { result ≡ slice_get (switched_in self.now dest) place }
    {
        let span = self.span_by_switch.get(dest.get())?;
        if place >= span.count {
            return None;
        }
        let number = span.first as usize + place as usize;
        self.switched.get(number).copied()
    }
}

// The number of each source in its level.
fn numbers_by_source(alloc: Global, plant: &Plant) -> Result<NumberMap<u16>, AllocError>
    ensures { IfOk result (λ by_source.
        HaveNumbersBelow plant.now (sources_of plant.now) by_source.entries) }
{
    let sources = plant.source_count();
    let mut by_source = NumberMap::new(alloc, sources as usize)?;
    for number in 0..sources {
        let source = SourceId::of(number);
        by_source.set(number, Some(plant.source_number(source)));
    }
    Ok(by_source)
}

// The bus that each destination is.
fn buses_by_dest(alloc: Global, plant: &Plant) -> Result<NumberMap<BusId>, AllocError>
    ensures { IfOk result (λ by_dest. HaveBusesFrom plant.now 0 by_dest.entries) }
{
    let mut by_dest = NumberMap::new(alloc, plant.destination_count() as usize)?;
    let buses = plant.buses();
    for number in (0..buses.len()).rev() {
        by_dest.set(buses[number].dest.get(), Some(BusId::of(number as u32)));
    }
    Ok(by_dest)
}

// The device whose output each source is.
fn devices_by_output(alloc: Global, plant: &Plant) -> Result<NumberMap<DeviceId>, AllocError>
    ensures { IfOk result (λ by_output. HaveDevicesFrom plant.now 0 by_output.entries) }
{
    let mut by_output = NumberMap::new(alloc, plant.source_count() as usize)?;
    let devices = plant.devices();
    for number in (0..devices.len()).rev() {
        by_output.set(
            devices[number].output.get(),
            Some(DeviceId::of(number as u32)),
        );
    }
    Ok(by_output)
}

// Puts the buses that are switched as the bus of this number is into the list, unless they are there.
fn put_switch(
    plant: &Plant,
    number: usize,
    spans: &mut NumberMap<Span>,
    switched: &mut Vec<DestId>,
) -> Result<(), AllocError>
    requires number { number < length plant.now.buses }
    requires room { spans.old.room ≡ destinations_of plant.now }
    requires spans { AreSpansBelow plant.now number spans.old.entries switched.old.items }
    ensures room { OnOk result (spans.new.room ≡ destinations_of plant.now) }
    ensures spans { OnOk result
        (AreSpansBelow plant.now (number + 1) spans.new.entries switched.new.items) }
{
    let buses = plant.buses();
    let bus = buses[number];
    let Some(switch) = bus.switch else {
        return Ok(());
    };
    if spans.get(switch.get()).is_some() {
        return Ok(());
    }
    let first = switched.len() as u32;
    push_switched(buses, switch, switched)?;
    let count = switched.len() as u32 - first;
    spans.set(switch.get(), Some(Span { first, count }));
    Ok(())
}

// Appends the buses that a destination switches.
fn push_switched(buses: &[Bus], switch: DestId, out: &mut Vec<DestId>) -> Result<(), AllocError>
    ensures { OnOk result (out.new.items ≡ out.old.items ++ switched_among switch buses.now) }
{
    for bus in buses {
        if bus.switch == Some(switch) {
            out.push(bus.dest)?;
        }
    }
    Ok(())
}
