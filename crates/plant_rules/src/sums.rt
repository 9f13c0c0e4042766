//! How many sources and destinations all levels have.

ghost use Rattle.std.specs.Prelude.{◌≡◌, ◌<◌, ◌^◌, pos, sum_by};
ghost use Rattle.plant_file.specs.declared.fault.Section.TheVariants as sections;
ghost use Rattle.plant_file.specs.FirstFault.{first_fault};
ghost use Rattle.plant_file.specs.KeyFaults.{place, range_faults};
ghost use Rattle.plant_rules.specs.Rules.{sum_faults};
ghost use Rattle.plant_file.specs.Ranges.{AreInRange};

use plant_file::{Field, LevelEntry, Place, PlantFault, PlantFile, Section};

// The most sources of a plant, and the most destinations.
const MAX_SOURCES: u32 = 65536;

const MAX_DESTINATIONS: u32 = 65536;

// A number that isn't from 1 to `most`.
fn range_fault(at: Place, value: u32, most: u32) -> Option<PlantFault>
    ensures { result ≡ first_fault (range_faults at (pos value) 1 most) }
{
    if 1 <= value && value <= most {
        return None;
    }
    Some(PlantFault::OutOfRange {
        at,
        value: i64::from(value),
        low: 1,
        high: i64::from(most),
    })
}

// How many sources all levels have.
fn sources_of(levels: &[LevelEntry]) -> u32
    requires { sum_by (λ level. level.sources) levels.now < 2 ^ 32 }
    ensures { result ≡ sum_by (λ level. level.sources) levels.now }
{
    levels.iter().map(|level| level.sources()).sum()
}

// How many destinations all levels have.
fn destinations_of(levels: &[LevelEntry]) -> u32
    requires { sum_by (λ level. level.destinations) levels.now < 2 ^ 32 }
    ensures { result ≡ sum_by (λ level. level.destinations) levels.now }
{
    levels.iter().map(|level| level.destinations()).sum()
}

// The levels as a whole: a sum over them is no key of one entry, so its place is the first.
fn place_of(field: Field) -> Place
    ensures { result ≡ place sections.Level 0 field }
{
    Place {
        section: Section::Level,
        entry: 0,
        field,
    }
}

// The levels have too many sources in all, or too many destinations.
pub(crate) fn sum_fault(file: &PlantFile) -> Option<PlantFault>
    requires { AreInRange file.now }
    ensures { result ≡ first_fault (sum_faults file.now) }
{
    let levels = file.levels();
    let sources = range_fault(place_of(Field::Sources), sources_of(levels), MAX_SOURCES);
    let most = MAX_DESTINATIONS;
    let destinations = range_fault(place_of(Field::Destinations), destinations_of(levels), most);
    sources.or(destinations)
}
