//! What the ties that pools keep for masters mean, for all crosspoints and lists of changes.

ghost use Rattle.std.specs.Prelude.{◌≡◌, Bool, false, List};
ghost use Rattle.plant_config.specs.declared.records.Change.{Change};
ghost use Rattle.plant_config.specs.Plant.{PlantData};
ghost use Rattle.plant_config.specs.Reserves.{has_reserve};
ghost use Rattle.crosspoint_state.specs.Crosspoints.{Crosspoints};
ghost use Rattle.crosspoint_state.specs.Applied.{are_enough};
ghost use Rattle.tie_pools.specs.Reserve.{are_enough_for};
ghost use Rattle.tie_pools.specs.Laws.{NoMoreIsNoExcess, MastersUseAll, MastersMayAsMuch};

/// On a plant whose pools keep no ties the ties are enough for a panel's list exactly where they are enough at all, whoever
/// asks.
pub fn without_a_reserve_all_panels_may_the_same()
    ensures { (plant : PlantData) (crosspoints : Crosspoints) (master : Bool)
        (changes : List Change) → has_reserve plant ≡ false
        → are_enough_for plant crosspoints master changes
        ≡ are_enough plant crosspoints changes }
{}

/// A panel that is no master isn't refused a list for a pool of which it needs no more origins than come by it already.
pub fn who_needs_no_more_is_not_refused()
    ensures { (plant : PlantData) (crosspoints : Crosspoints) (changes : List Change) →
        NoMoreIsNoExcess plant crosspoints changes }
{}

/// A master is refused exactly where the ties themselves aren't enough.
pub fn a_master_may_use_all_ties()
    ensures { (plant : PlantData) (crosspoints : Crosspoints) (changes : List Change) →
        MastersUseAll plant crosspoints changes }
{}

/// What a panel may, a master may.
pub fn a_master_may_what_a_panel_may()
    ensures { (plant : PlantData) (crosspoints : Crosspoints) (changes : List Change) →
        MastersMayAsMuch plant crosspoints changes }
{}
