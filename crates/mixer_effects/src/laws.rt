//! What is true of all crosspoints, not only of those that a program makes.

ghost use Rattle.std.specs.Prelude.{ℕ, List};
ghost use Rattle.plant_config.specs.Plant.{PlantData};
ghost use Rattle.plant_config.specs.IsPlant.{IsPlant};
ghost use Rattle.crosspoint_state.specs.Crosspoints.{Crosspoints};
ghost use Rattle.mixer_effects.specs.Laws.{LiveIsLeast, RootsAreSeen, CutIsDark, SwitchesCut};

/// The live destinations are the roots, the buses that are on of the devices that feed these, and so on, and no others. So
/// many rounds as there are devices find them all.
pub fn live_is_least()
    ensures { (plant : PlantData) (crosspoints : Crosspoints) (roots : List ℕ) →
        LiveIsLeast plant crosspoints roots }
{}

/// The source that a root carries is seen there.
pub fn sources_at_roots_are_seen()
    ensures { (plant : PlantData) (crosspoints : Crosspoints) (roots : List ℕ) →
        RootsAreSeen plant crosspoints roots }
{}

/// A source to which no way leads from the roots is dark, whatever loops there are elsewhere.
pub fn cut_sources_are_dark()
    ensures { (plant : PlantData) (crosspoints : Crosspoints) (roots : List ℕ) →
        CutIsDark plant crosspoints roots }
{}

/// A bus whose switch is parked or carries source 0 of its level isn't live, unless it is a root.
pub fn a_cut_switch_cuts_its_bus()
    ensures { (plant : PlantData) (crosspoints : Crosspoints) (roots : List ℕ) →
        IsPlant plant → SwitchesCut plant crosspoints roots }
{}
