//! What is true of the names of every plant, not only of one that a program has.

ghost use Rattle.std.specs.Prelude.{ℕ};
ghost use Rattle.plant_config.specs.Plant.{PlantData};
ghost use Rattle.plant_config.specs.IsPlant.{IsPlant};
ghost use Rattle.plant_names.specs.Laws.{SourcesAreNamed, DestsAreNamed, PagesHaveAll};

/// A source of a level is what its name leads to there, and what a name leads to has the name and is of the level.
pub fn sources_have_their_names()
    ensures { (plant : PlantData) → IsPlant plant → SourcesAreNamed plant }
{}

/// A destination of a level is what its name leads to there, and what a name leads to has the name and is of the level.
pub fn dests_have_their_names()
    ensures { (plant : PlantData) → IsPlant plant → DestsAreNamed plant }
{}

/// The pages of a level's names one behind the other have each name once, in order.
pub fn pages_have_each_name_once()
    ensures { (size : ℕ) → PagesHaveAll size }
{}
