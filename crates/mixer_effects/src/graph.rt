//! What the devices of a plant do with its crosspoints.

ghost use Rattle.std.specs.Prelude.{◌≡◌, ◌+◌, slice_get};
ghost use Rattle.tap_lists.specs.Lists.{IsHeadOf};
ghost use Rattle.plant_config.specs.Plant.{PlantData};
ghost use Rattle.mixer_effects.specs.Buses.{is_switch_on, is_bus_on, is_on};
ghost use Rattle.mixer_effects.specs.Buses.{device_at, fed_device, buses_at, switched_at};
ghost use Rattle.mixer_effects.specs.Wiring.{IsWiringOf};

use crate::mixers::Mixers;
use crosspoint_state::Crosspoints;
use plant_config::{Bus, DestId, DeviceId, Plant, SourceId};
use seen_value::Seen;
use std::marker::{Model, PhantomData};
use std::sync::ledger::Ledger;
use tap_lists::Steps;

/// The tables of a plant's devices, and what its destinations carry. A graph tells what its six calls answer, and nothing else:
/// `origin_at`, `bus`, `device_of`, `fed_device`, `is_on` and `switched_by`. Each looks at a few places of the tables, whatever
/// the plant has, and counts as one read. It is counted by the ledger that the graph is for, so no other count will do.
#[derive(Drop)]
pub struct Graph<'a, L: Ledger> {
    plant: Seen<Plant>,
    mixers: &'a Mixers,
    points: &'a Crosspoints,
    ledger: PhantomData<L>,
}

impl<'a, L: Ledger> Model for Graph<'a, L> {
    ghost use Rattle.std.specs.Coded.{codes};
    ghost use Rattle.tap_lists.specs.Lists as lists;
    ghost use Rattle.crosspoint_state.specs.Crosspoints as carried;
    ghost use Rattle.mixer_effects.specs.Wiring as wired;
    ghost use Rattle.mixer_effects.specs.GraphData.{GraphData};

    ghost Value = { GraphData };

    ghost coded = { Prim.hlevel (codes, wired.code, carried.crosspoints_code, lists.code) };

    ghost view = { λ graph. record {
      plant = graph.plant.value;
      wiring = graph.mixers.now;
      crosspoints = graph.points.now.entries;
      taps = graph.points.now.taps;
    } };
}

impl<'a, L: Ledger> Graph<'a, L> {
    /// The tables of a plant, and what its destinations carry. The plant is for the clauses alone.
    pub fn new(plant: &Plant, mixers: &'a Mixers, points: &'a Crosspoints) -> Graph<'a, L>
        ensures plant { result.plant ≡ plant.now }
        ensures wiring { result.wiring ≡ mixers.now }
        ensures crosspoints { result.crosspoints ≡ points.now.entries }
        ensures taps { result.taps ≡ points.now.taps }
    {
        Graph {
            plant: Seen::of(plant),
            mixers,
            points,
            ledger: PhantomData,
        }
    }

    /// The local source whose picture a destination carries: the head under which it stands in the tap lists. `None` where it
    /// stands under none.
    pub fn origin_at(&self, dest: DestId, steps: &mut Steps<L>) -> Option<SourceId>
        ensures head { IsHeadOf self.now.taps dest result }
        ensures counted { steps.new ≡ steps.old + 1 }
    {
        steps.tick();
        let head = self.points.taps().head_of(dest.get())?;
        Some(SourceId::of(head))
    }

    /// The bus of this place among a device's, in the order of the plant. `None` where the device has no more.
    pub fn bus(&self, device: DeviceId, place: u32, steps: &mut Steps<L>) -> Option<DestId>
        ensures bus { (plant : PlantData) → IsWiringOf plant self.now.wiring
            → result ≡ slice_get (buses_at plant device) place }
        ensures counted { steps.new ≡ steps.old + 1 }
    {
        steps.tick();
        let device = self.mixers.device(device)?;
        if place >= device.buses {
            return None;
        }
        let number = device.first_bus as usize + place as usize;
        let bus = self.mixers.bus(number)?;
        Some(bus.dest)
    }

    /// The device of the bus that a destination is, `None` where it is no bus.
    pub fn device_of(&self, dest: DestId, steps: &mut Steps<L>) -> Option<DeviceId>
        ensures device { (plant : PlantData) → IsWiringOf plant self.now.wiring
            → result ≡ device_at plant dest }
        ensures counted { steps.new ≡ steps.old + 1 }
    {
        steps.tick();
        let bus = self.mixers.bus_at(dest)?;
        Some(bus.device)
    }

    /// The device whose output is this source, `None` where there is none.
    pub fn fed_device(&self, origin: SourceId, steps: &mut Steps<L>) -> Option<DeviceId>
        ensures device { (plant : PlantData) → IsWiringOf plant self.now.wiring
            → result ≡ fed_device plant origin }
        ensures counted { steps.new ≡ steps.old + 1 }
    {
        steps.tick();
        self.mixers.fed_device(origin)
    }

    /// Whether a destination is a bus that is on.
    pub fn is_on(&self, dest: DestId, steps: &mut Steps<L>) -> bool
        ensures on { (plant : PlantData) → IsWiringOf plant self.now.wiring
            → result ≡ is_on plant self.now.crosspoints dest }
        ensures counted { steps.new ≡ steps.old + 1 }
    {
        steps.tick();
        let Some(bus) = self.mixers.bus_at(dest) else {
            return false;
        };
        self.is_bus_on(&bus)
    }

    /// The bus of this place among those that a destination switches, in the order of the plant. `None` where it switches no
    /// more.
    pub fn switched_by(&self, dest: DestId, place: u32, steps: &mut Steps<L>) -> Option<DestId>
        ensures bus { (plant : PlantData) → IsWiringOf plant self.now.wiring
            → result ≡ slice_get (switched_at plant dest) place }
        ensures counted { steps.new ≡ steps.old + 1 }
    {
        steps.tick();
        self.mixers.switched(dest, place)
    }

    // Whether a bus is on: always, or where its switch is.
    fn is_bus_on(&self, bus: &Bus) -> bool
        ensures { (plant : PlantData) → IsWiringOf plant self.now.wiring
            → result ≡ is_bus_on plant self.now.crosspoints bus.now }
    {
        match bus.switch {
            Some(switch) => self.is_switch_on(switch),
            None => true,
        }
    }

    // Whether a switch is on: it carries a source of the plant whose number in its level isn't 0.
    fn is_switch_on(&self, switch: DestId) -> bool
        ensures { (plant : PlantData) → IsWiringOf plant self.now.wiring
            → result ≡ is_switch_on plant self.now.crosspoints switch }
    {
        match self.points.source_at(switch) {
            Some(source) => self.mixers.is_on_by(source),
            None => false,
        }
    }
}
