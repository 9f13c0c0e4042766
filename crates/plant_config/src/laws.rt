//! What is true of the limits and the numbers of every plant, not only of one that a program has.

ghost use Rattle.std.specs.Prelude.{◌≡◌, ℕ, ◌≤◌};
ghost use Rattle.plant_config.specs.Limits as limits;
ghost use Rattle.plant_config.specs.Plant.{PlantData, dest_numbers, source_numbers};
ghost use Rattle.plant_config.specs.IsPlant.{IsPlant};
ghost use Rattle.plant_config.specs.Sites.{LeadBothWays};
ghost use Rattle.plant_config.specs.Origins.{OriginsAreLocal, PoolsLeadAcross, BusesDiffer};
ghost use Rattle.plant_config.specs.Screens.{ScreensAreOfDisplays};
ghost use Rattle.plant_config.specs.Bench.{bench, bench_file};
ghost use Rattle.plant_config.specs.DrillPlant.{drill_plant, drill_panel_limit};
ghost use Rattle.plant_config.specs.PlantOfFile.{plant_of_file};

use crate::limits::{LEVELS_OF_A_MATRIX, MATRICES, MAX_DESTINATIONS, MAX_SOURCES};

/// The numbers of the code are those of the profile.
pub fn limits_are_those_of_the_profile()
    ensures matrices { MATRICES ≡ limits.matrix_limit }
    ensures levels_of_a_matrix { LEVELS_OF_A_MATRIX ≡ limits.level_limit }
    ensures sources { MAX_SOURCES ≡ limits.all_sources_limit }
    ensures destinations { MAX_DESTINATIONS ≡ limits.all_destinations_limit }
{}

/// The bench plant is within its limits, in order and numbered.
pub fn the_bench_is_a_plant()
    ensures { IsPlant bench }
{}

/// The plant of the drill is within its limits, in order and numbered, whatever its panels are.
pub fn drills_are_plants()
    ensures { (panels : ℕ) → 1 ≤ panels → panels ≤ drill_panel_limit
        → IsPlant (drill_plant panels) }
{}

/// The bench plant is that of its file.
pub fn the_bench_is_in_its_file()
    ensures { plant_of_file bench_file ≡ bench }
{}

/// A destination's number leads to its place and back. So no two destinations have one number, and none has two.
pub fn dests_are_numbered()
    ensures { (plant : PlantData) → IsPlant plant → LeadBothWays dest_numbers plant }
{}

/// A source's number leads to its place and back. So no two sources have one number, and none has two.
pub fn sources_are_numbered()
    ensures { (plant : PlantData) → IsPlant plant → LeadBothWays source_numbers plant }
{}

/// Each source stands for a local one, and a local source for itself.
pub fn origins_are_local()
    ensures { (plant : PlantData) → IsPlant plant → OriginsAreLocal plant }
{}

/// The pool of a remote source leads from the matrix of the source that it stands for to its own, another one, at the
/// level of both.
pub fn pools_lead_across()
    ensures { (plant : PlantData) → IsPlant plant → PoolsLeadAcross plant }
{}

/// No destination is two buses.
pub fn buses_differ()
    ensures { (plant : PlantData) → IsPlant plant → BusesDiffer plant }
{}

/// The screens of a plant ascend, each once, and a number is among them exactly where a display has it.
pub fn screens_are_of_displays()
    ensures { (plant : PlantData) → IsPlant plant → ScreensAreOfDisplays plant }
{}
