//! The keys at which an entry names what the plant doesn't have.

ghost use Rattle.std.specs.Prelude.{◌≡◌, Some};
ghost use Rattle.plant_rules.specs.Links.{destination_unknown, switch_unknown};
ghost use Rattle.plant_rules.specs.LinksInside.{first_field};

use crate::known::Known;
use crate::rule::{Rule, RuleOf};
use plant_file::{
    BusEntry, DeviceEntry, DisplayEntry, Field, Place, PlantFault, PoolEntry, RemoteEntry,
    RootEntry, SwitchEntry,
};

// Devices, buses, roots and displays are at this level of their matrix.
pub(crate) const MAIN_LEVEL: u8 = 0;

fn destination_unknown(known: &Known<'_>, matrix: u8, destination: u16) -> Option<Field>
    ensures { result ≡ first_field (destination_unknown known.now matrix destination) }
{
    if !known.has_level(matrix, MAIN_LEVEL) {
        return Some(Field::Matrix);
    }
    if !known.has_destination(matrix, MAIN_LEVEL, destination) {
        return Some(Field::Destination);
    }
    None
}

fn switch_unknown(known: &Known<'_>, switch: &SwitchEntry) -> Option<Field>
    ensures { result ≡ first_field (switch_unknown known.now (Some switch.now)) }
{
    if !known.has_level(switch.matrix, switch.level) {
        return Some(Field::SwitchLevel);
    }
    if !known.has_destination(switch.matrix, switch.level, switch.destination) {
        return Some(Field::SwitchDestination);
    }
    None
}

// An entry names what the plant doesn't have.
#[derive(Clone, Copy)]
pub(crate) struct Unknown<'k, 'f> {
    pub known: &'k Known<'f>,
}

impl Rule for Unknown<'_, '_> {
    ghost use Rattle.plant_file.specs.declared.fault.PlantFault.TheVariants.{NoSuchThing};

    ghost fault = { NoSuchThing };

    fn fault(at: Place) -> PlantFault {
        PlantFault::NoSuchThing { at }
    }
}

impl RuleOf<RemoteEntry> for Unknown<'_, '_> {
    ghost use Rattle.plant_rules.specs.Links.{remote_unknown};

    ghost broken = { λ rule remote. remote_unknown rule.known.now remote };

    fn first_broken(&self, remote: &RemoteEntry) -> Option<Field> {
        let known = self.known;
        if !known.has_level(remote.matrix, remote.level) {
            return Some(Field::Matrix);
        }
        if !known.has_source(remote.matrix, remote.level, remote.source) {
            return Some(Field::Source);
        }
        if !known.has_level(remote.from, remote.level) || remote.from == remote.matrix {
            return Some(Field::From);
        }
        if !known.has_source(remote.from, remote.level, remote.from_source) {
            return Some(Field::FromSource);
        }
        None
    }
}

impl RuleOf<PoolEntry> for Unknown<'_, '_> {
    ghost use Rattle.plant_rules.specs.Links.{pool_unknown};

    ghost broken = { λ rule pool. pool_unknown rule.known.now pool };

    fn first_broken(&self, pool: &PoolEntry) -> Option<Field> {
        if !self.known.has_level(pool.from, pool.level) {
            return Some(Field::From);
        }
        if !self.known.has_level(pool.to, pool.level) || pool.from == pool.to {
            return Some(Field::To);
        }
        None
    }
}

impl RuleOf<DeviceEntry> for Unknown<'_, '_> {
    ghost use Rattle.plant_rules.specs.Links.{device_unknown};

    ghost broken = { λ rule device. device_unknown rule.known.now device };

    fn first_broken(&self, device: &DeviceEntry) -> Option<Field> {
        if !self.known.has_level(device.matrix, MAIN_LEVEL) {
            return Some(Field::Matrix);
        }
        if !self
            .known
            .has_source(device.matrix, MAIN_LEVEL, device.source)
        {
            return Some(Field::Source);
        }
        None
    }
}

impl RuleOf<BusEntry> for Unknown<'_, '_> {
    ghost use Rattle.plant_rules.specs.Links.{bus_unknown};

    ghost broken = { λ rule bus. bus_unknown rule.known.now bus };

    fn first_broken(&self, bus: &BusEntry) -> Option<Field> {
        if !self.known.has_device(&bus.device) {
            return Some(Field::Device);
        }
        if let Some(field) = destination_unknown(self.known, bus.matrix, bus.destination) {
            return Some(field);
        }
        match &bus.switch {
            Some(switch) => switch_unknown(self.known, switch),
            None => None,
        }
    }
}

impl RuleOf<RootEntry> for Unknown<'_, '_> {
    ghost use Rattle.plant_rules.specs.Links.{destination_unknown};

    ghost broken = { λ rule root.
        destination_unknown rule.known.now root.matrix root.destination };

    fn first_broken(&self, root: &RootEntry) -> Option<Field> {
        destination_unknown(self.known, root.matrix, root.destination)
    }
}

impl RuleOf<DisplayEntry> for Unknown<'_, '_> {
    ghost use Rattle.plant_rules.specs.Links.{destination_unknown};

    ghost broken = { λ rule display.
        destination_unknown rule.known.now display.matrix display.destination };

    fn first_broken(&self, display: &DisplayEntry) -> Option<Field> {
        destination_unknown(self.known, display.matrix, display.destination)
    }
}
