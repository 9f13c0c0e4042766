//! What is true of all crosspoints, not only of those that a program makes. No list names a destination twice.

ghost use Rattle.std.specs.Prelude.{List};
ghost use Rattle.std.specs.FinMap.{empty};
ghost use Rattle.plant_config.specs.declared.records.Change.{Change};
ghost use Rattle.plant_config.specs.Plant.{PlantData};
ghost use Rattle.plant_config.specs.IsPlant.{IsPlant};
ghost use Rattle.crosspoint_state.specs.Crosspoints.{Crosspoints, NamesOnce};
ghost use Rattle.crosspoint_state.specs.Ties.{HaveValidTies};
ghost use Rattle.crosspoint_state.specs.Laws.{ChangesAreMade, OthersStay, IdleOnesStay};
ghost use Rattle.crosspoint_state.specs.Laws.{IdleOnesDoNothing, AreInside, TiesStayValid};
ghost use Rattle.crosspoint_state.specs.Laws.{ExhaustedWhereNotEnough, TiesAreFreedLast};

/// Each destination that a change names carries the source of its change afterwards, or is parked by it.
pub fn changes_are_made()
    ensures { (plant : PlantData) (crosspoints : Crosspoints) (changes : List Change) →
        NamesOnce changes → ChangesAreMade plant crosspoints changes }
{}

/// A destination that no change names carries what it carried.
pub fn other_destinations_stay()
    ensures { (plant : PlantData) (crosspoints : Crosspoints) (changes : List Change) →
        NamesOnce changes → OthersStay plant crosspoints changes }
{}

/// The destination of an idle change keeps its source and its tie, and an idle change makes no difference to the others.
pub fn idle_changes_do_nothing()
    ensures stay { (plant : PlantData) (crosspoints : Crosspoints) (changes : List Change) →
        NamesOnce changes → IdleOnesStay plant crosspoints changes }
    ensures others { (plant : PlantData) (crosspoints : Crosspoints) →
        IdleOnesDoNothing plant crosspoints }
{}

/// Where nothing is carried all ties are valid. Valid ties stay so through each list of changes of the plant's
/// destinations for which the ties are enough.
pub fn ties_stay_valid()
    ensures none { (plant : PlantData) → HaveValidTies plant empty }
    ensures changed { (plant : PlantData) (crosspoints : Crosspoints) (changes : List Change) →
        IsPlant plant → NamesOnce changes → AreInside plant changes →
        TiesStayValid plant crosspoints changes }
{}

/// A release frees the tie of a destination only where no destination carries its origin by its pool any more.
pub fn ties_are_freed_last()
    ensures { (plant : PlantData) (crosspoints : Crosspoints) (changes : List Change) →
        TiesAreFreedLast plant crosspoints changes }
{}

/// A pool is exhausted exactly where the ties aren't enough.
pub fn a_pool_is_exhausted_where_ties_are_not_enough()
    ensures { (plant : PlantData) (crosspoints : Crosspoints) (changes : List Change) →
        ExhaustedWhereNotEnough plant crosspoints changes }
{}
