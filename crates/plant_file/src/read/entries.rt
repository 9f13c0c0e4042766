//! The entries of each section that have no text, key by key.

ghost use Rattle.std.specs.Prelude.{◌≡◌};
ghost use Rattle.toml.specs.View.{table_view};
ghost use Rattle.plant_file.specs.Format.{remote_keys, pool_keys, device_keys, bus_keys};
ghost use Rattle.plant_file.specs.Format.{root_keys, display_keys, panel_keys};
ghost use Rattle.plant_file.specs.Reading.{remote_entry, pool_entry, device_entry, switch_entry};
ghost use Rattle.plant_file.specs.Reading.{bus_entry, root_entry, display_entry, panel_entry};
ghost use Rattle.plant_file.specs.ReadingInside.{keys_at, keys_answer, entry_answer, switch_keys};
ghost use Rattle.plant_file.specs.ReadingInside.{present_switch_keys, switch_in};

use crate::entries::{
    BusEntry, DeviceEntry, DisplayEntry, PanelEntry, PoolEntry, RemoteEntry, RootEntry, SwitchEntry,
};
use crate::fault::{Field, PlantFault};
use crate::read::entry::Entry;

// A remote source.
#[tactic(auto, using(crate::proofs::ReadingInside::keys))]
pub(crate) fn read_remote(entry: &Entry) -> Result<RemoteEntry, PlantFault>
    ensures { result ≡ entry_answer remote_entry (keys_at remote_keys entry.now.section)
        entry.now.number (table_view entry.now.table.now) }
{
    Ok(RemoteEntry {
        matrix: entry.number(Field::Matrix, 0, 15)? as u8,
        level: entry.number(Field::Level, 0, 15)? as u8,
        source: entry.number(Field::Source, 0, 65534)? as u16,
        from: entry.number(Field::From, 0, 15)? as u8,
        from_source: entry.number(Field::FromSource, 0, 65534)? as u16,
    })
}

// A pool of tie-lines.
#[tactic(auto, using(crate::proofs::ReadingInside::keys))]
pub(crate) fn read_pool(entry: &Entry) -> Result<PoolEntry, PlantFault>
    ensures { result ≡ entry_answer pool_entry (keys_at pool_keys entry.now.section)
        entry.now.number (table_view entry.now.table.now) }
{
    let from = entry.number(Field::From, 0, 15)? as u8;
    let to = entry.number(Field::To, 0, 15)? as u8;
    let level = entry.number(Field::Level, 0, 15)? as u8;
    let ties = entry.number(Field::Ties, 1, 1024)?;
    let reserve = entry.number_up_to_or(Field::Reserve, 1024, Field::Ties, ties, 0)?;
    Ok(PoolEntry {
        from,
        to,
        level,
        ties: ties as u32,
        reserve: reserve as u32,
    })
}

// A device.
#[tactic(auto, using(crate::proofs::ReadingInside::keys))]
pub(crate) fn read_device(entry: &Entry) -> Result<DeviceEntry, PlantFault>
    ensures { result ≡ entry_answer device_entry (keys_at device_keys entry.now.section)
        entry.now.number (table_view entry.now.table.now) }
{
    Ok(DeviceEntry {
        name: entry.name(Field::Name)?,
        matrix: entry.number(Field::Matrix, 0, 15)? as u8,
        source: entry.number(Field::Source, 0, 65534)? as u16,
    })
}

// A bus's switch, where its matrix is there.
#[tactic(auto, using(crate::proofs::ReadingInside::keys))]
fn read_present_switch(entry: &Entry) -> Result<SwitchEntry, PlantFault>
    ensures { result ≡ keys_answer (switch_entry (table_view entry.now.table.now))
        entry.now.section entry.now.number (table_view entry.now.table.now) present_switch_keys }
{
    Ok(SwitchEntry {
        matrix: entry.number(Field::SwitchMatrix, 0, 15)? as u8,
        level: entry.number(Field::SwitchLevel, 1, 15)? as u8,
        destination: entry.number(Field::SwitchDestination, 0, 65535)? as u16,
    })
}

// A bus's switch, if it has one.
fn read_switch(entry: &Entry) -> Result<Option<SwitchEntry>, PlantFault>
    ensures { result ≡ keys_answer (switch_in (table_view entry.now.table.now)) entry.now.section
        entry.now.number (table_view entry.now.table.now) switch_keys }
{
    match entry.found(Field::SwitchMatrix) {
        None => Ok(None),
        Some(_) => match read_present_switch(entry) {
            Ok(switch) => Ok(Some(switch)),
            Err(fault) => Err(fault),
        },
    }
}

// A bus.
#[tactic(auto, using(crate::proofs::ReadingInside::keys))]
pub(crate) fn read_bus(entry: &Entry) -> Result<BusEntry, PlantFault>
    ensures { result ≡ entry_answer bus_entry (keys_at bus_keys entry.now.section)
        entry.now.number (table_view entry.now.table.now) }
{
    Ok(BusEntry {
        device: entry.name(Field::Device)?,
        matrix: entry.number(Field::Matrix, 0, 15)? as u8,
        destination: entry.number(Field::Destination, 0, 65535)? as u16,
        switch: read_switch(entry)?,
    })
}

// A destination that is on air, or on preview.
#[tactic(auto, using(crate::proofs::ReadingInside::keys))]
pub(crate) fn read_root(entry: &Entry) -> Result<RootEntry, PlantFault>
    ensures { result ≡ entry_answer (root_entry entry.now.section) (root_keys entry.now.section)
        entry.now.number (table_view entry.now.table.now) }
{
    Ok(RootEntry {
        matrix: entry.number(Field::Matrix, 0, 15)? as u8,
        destination: entry.number(Field::Destination, 0, 65535)? as u16,
    })
}

// A display.
#[tactic(auto, using(crate::proofs::ReadingInside::keys))]
pub(crate) fn read_display(entry: &Entry) -> Result<DisplayEntry, PlantFault>
    ensures { result ≡ entry_answer display_entry (keys_at display_keys entry.now.section)
        entry.now.number (table_view entry.now.table.now) }
{
    Ok(DisplayEntry {
        screen: entry.number(Field::Screen, 0, 65534)? as u16,
        index: entry.number(Field::Index, 0, 65534)? as u16,
        matrix: entry.number(Field::Matrix, 0, 15)? as u8,
        destination: entry.number(Field::Destination, 0, 65535)? as u16,
    })
}

// A panel.
#[tactic(auto, using(crate::proofs::ReadingInside::keys))]
pub(crate) fn read_panel(entry: &Entry) -> Result<PanelEntry, PlantFault>
    ensures { result ≡ entry_answer panel_entry (keys_at panel_keys entry.now.section)
        entry.now.number (table_view entry.now.table.now) }
{
    Ok(PanelEntry {
        device: entry.number(Field::Device, 0, 1023)? as u16,
        port: entry.number(Field::Port, 1, 65535)? as u16,
        master: entry.flag_or(Field::Master, false)?,
    })
}
