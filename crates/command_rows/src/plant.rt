//! The plant that a word of the command line leads to.

ghost use Rattle.std.specs.Prelude.{◌≡◌, ℕ};
ghost use Rattle.command_rows.specs.OpensPlant.{is_bench, OpensFile, OpensPlant};
ghost use Rattle.command_rows.specs.StopInside.{opened_as};

use crate::stop::Stop;
use ctl_io::{Files, read_file};
use plant_config::Plant;
use std::alloc::Global;

// The most bytes of a plant file, 4 MiB.
const MAX_PLANT: usize = 4 << 20;

/// The plant that a word leads to, or what stops the run: for `bench` the bench plant, and else that of the plant file of
/// this name, which has at most 4 MiB.
pub fn open_plant<'a, F: Files>(
    alloc: Global,
    word: &'a str,
    files: &mut F,
) -> Result<Plant, Stop<'a>>
    ensures { OpensPlant word.entry.now (F.shows files.old)
        (F.shows files.new) (opened_as (λ plant. plant) result) }
{
    if is_bench(word) {
        match Plant::bench(alloc) {
            Ok(plant) => Ok(plant),
            Err(_) => Err(Stop::NoMemory),
        }
    } else {
        read_plant(alloc, word, files)
    }
}

// Whether a word is that of the bench plant.
fn is_bench(word: &str) -> bool
    ensures { result ≡ is_bench word.now }
{
    word == "bench"
}

// The plant of the file of this name.
fn read_plant<'a, F: Files>(alloc: Global, name: &'a str, files: &mut F) -> Result<Plant, Stop<'a>>
    ensures { OpensFile name.entry.now (F.shows files.old)
        (F.shows files.new) (opened_as (λ plant. plant) result) }
{
    let text = match read_file(alloc, files, name, MAX_PLANT) {
        Ok(text) => text,
        Err(fault) => return Err(Stop::of_file(fault, name, Stop::PlantTooLong)),
    };
    match Plant::from_toml(alloc, text.as_slice()) {
        Ok(plant) => Ok(plant),
        Err(fault) => Err(Stop::of_fault(alloc, fault)),
    }
}
