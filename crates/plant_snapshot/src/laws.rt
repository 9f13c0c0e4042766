//! What is true of every store's bytes.

ghost use Rattle.plant_snapshot.specs.Laws.{StandForOneState, StandUndamaged};

/// Bytes stand for one state at most, under one number, and then they aren't damaged.
pub fn stores_stand_for_one_state()
    ensures one { StandForOneState }
    ensures undamaged { StandUndamaged }
{}
