//! The first entry whose key is that of one in front of it, and the first level with a name twice.

ghost use Rattle.std.specs.Prelude.{◌≡◌, ◌<◌, ◌^◌, IfOk, IfSome, length, map, slice_get};
ghost use Rattle.plant_file.specs.declared.fault.Section.TheVariants as sections;
ghost use Rattle.plant_file.specs.FirstFault.{first_fault};
ghost use Rattle.plant_rules.specs.Rules.{has_twice, twice_at, level_twice, device_twice};
ghost use Rattle.plant_rules.specs.Rules.{twice_faults};
ghost use Rattle.plant_file.specs.Ranges.{AreInRange};
ghost use Rattle.plant_rules.specs.RulesInside.{first_place, first_twice, earlier};
ghost use Rattle.plant_rules.specs.RulesInside.{names_twice, twice_place};

use crate::keys::Keyed;
use plant_file::{DeviceEntry, Field, LevelEntry, Name, Place, PlantFault, PlantFile, Section};
use std::alloc::{AllocError, Global};
use std::collections::BTreeSet;

// The index of the first entry whose key is that of one in front of it.
fn first_repeat<T: Keyed>(alloc: Global, entries: &[T]) -> Result<Option<usize>, AllocError>
    ensures first { IfOk result (λ found. found ≡ first_twice (map T.numbers_of entries.now)) }
    ensures within { IfOk result (λ found. IfSome found (λ at. at < length entries.now)) }
{
    let mut seen = BTreeSet::new(alloc);
    for (at, entry) in entries.iter().enumerate() {
        if !seen.insert(entry.key())? {
            return Ok(Some(at));
        }
    }
    Ok(None)
}

// The place of that entry, in a section.
fn repeat_place<T: Keyed>(
    alloc: Global,
    section: Section,
    field: Field,
    entries: &[T],
) -> Result<Option<Place>, AllocError>
    requires { length entries.now < 2 ^ 32 }
    ensures { IfOk result (λ at.
        at ≡ first_place section (twice_at field T.numbers_of) entries.now) }
{
    let found = first_repeat(alloc, entries)?;
    Ok(found.map(|at| Place {
        section,
        entry: at as u32,
        field,
    }))
}

// The earlier place of two, and the first one where both are of one entry.
fn earlier_of(first: Option<Place>, second: Option<Place>) -> Option<Place>
    ensures { result ≡ earlier first second }
{
    match (first, second) {
        (Some(one), Some(other)) if other.entry < one.entry => second,
        (Some(_), _) => first,
        (None, _) => second,
    }
}

// A name is twice among these.
fn has_repeat(alloc: Global, names: &[Name]) -> Result<bool, AllocError>
    ensures { IfOk result (λ found. found ≡ has_twice names.now) }
{
    Ok(first_repeat(alloc, names)?.is_some())
}

// The key at which a level has a name twice.
fn names_key(alloc: Global, level: &LevelEntry) -> Result<Option<Field>, AllocError>
    ensures { IfOk result (λ field. field ≡ slice_get (names_twice level.now) 0) }
{
    if has_repeat(alloc, level.source_names())? {
        return Ok(Some(Field::SourceNames));
    }
    if has_repeat(alloc, level.destination_names())? {
        return Ok(Some(Field::DestinationNames));
    }
    Ok(None)
}

// The place of the first level that has a name twice.
fn names_place(alloc: Global, levels: &[LevelEntry]) -> Result<Option<Place>, AllocError>
    requires { length levels.now < 2 ^ 32 }
    ensures { IfOk result (λ at.
        at ≡ first_place sections.Level (λ _. names_twice) levels.now) }
{
    for (at, level) in levels.iter().enumerate() {
        if let Some(field) = names_key(alloc, level)? {
            return Ok(Some(Place {
                section: Section::Level,
                entry: at as u32,
                field,
            }));
        }
    }
    Ok(None)
}

// The first level that repeats another's matrix and level, or has a name twice.
fn level_place(alloc: Global, levels: &[LevelEntry]) -> Result<Option<Place>, AllocError>
    requires { length levels.now < 2 ^ 32 }
    ensures { IfOk result (λ at. at ≡ first_place sections.Level level_twice levels.now) }
{
    let level = repeat_place(alloc, Section::Level, Field::Level, levels)?;
    Ok(earlier_of(level, names_place(alloc, levels)?))
}

// Names are the second key of a device, beside its output.
fn device_names(alloc: Global, devices: &[DeviceEntry]) -> Result<Vec<Name>, AllocError>
    ensures { IfOk result (λ names. names.items ≡ map (λ device. device.name) devices.now) }
{
    devices.iter().map(|device| device.name).collect(alloc)
}

// The first device that repeats another's name or output.
fn device_place(alloc: Global, devices: &[DeviceEntry]) -> Result<Option<Place>, AllocError>
    requires { length devices.now < 2 ^ 32 }
    ensures { IfOk result (λ at. at ≡ first_place sections.Device device_twice devices.now) }
{
    let names = device_names(alloc, devices)?;
    let name = repeat_place(alloc, Section::Device, Field::Name, names.as_slice())?;
    let output = repeat_place(alloc, Section::Device, Field::Source, devices)?;
    Ok(earlier_of(name, output))
}

// The place of the first entry that repeats what one in front of it has, section by section.
#[tactic(auto, unfolding(crate::specs::RulesInside::twice_place))]
fn file_place(alloc: Global, file: &PlantFile) -> Result<Option<Place>, AllocError>
    requires { AreInRange file.now }
    ensures { IfOk result (λ at. at ≡ twice_place file.now) }
{
    let level = level_place(alloc, file.levels())?;
    let remote = repeat_place(alloc, Section::Remote, Field::Source, file.remotes())?;
    let pool = repeat_place(alloc, Section::Pool, Field::Level, file.pools())?;
    let device = device_place(alloc, file.devices())?;
    let bus = repeat_place(alloc, Section::Bus, Field::Destination, file.buses())?;
    let air = repeat_place(alloc, Section::Air, Field::Destination, file.air())?;
    let preview = repeat_place(alloc, Section::Preview, Field::Destination, file.preview())?;
    let display = repeat_place(alloc, Section::Display, Field::Index, file.displays())?;
    let panel = repeat_place(alloc, Section::Panel, Field::Port, file.panels())?;
    let first = level.or(remote).or(pool).or(device).or(bus);
    Ok(first.or(air).or(preview).or(display).or(panel))
}

// Two entries of a section have the same key, or a level has a name twice.
pub(crate) fn twice_fault(alloc: Global, file: &PlantFile) -> Result<Option<PlantFault>, AllocError>
    requires { AreInRange file.now }
    ensures { IfOk result (λ found. found ≡ first_fault (twice_faults file.now)) }
{
    let found = file_place(alloc, file)?;
    Ok(found.map(|at| PlantFault::Twice { at }))
}
