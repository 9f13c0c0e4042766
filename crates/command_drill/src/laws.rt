//! What the status of a drill tells, as a law over the ends of its row.

ghost use Rattle.std.specs.Prelude.{[], ◌∷◌};
ghost use Rattle.command_words.specs.Parts.{NoMore};
ghost use Rattle.command_rows.specs.Sound.{IsSound};
ghost use Rattle.command_drill.specs.Drill.{DrillRow, parts};
ghost use Rattle.command_drill.specs.Laws.{DrillEndsWithZero, DrillsLeaveFiles, ZeroHasDrilled};

/// Status 0: exactly the drill's lines were appended, and the drill has a trace, whose lines are those of a legal history of the
/// drill's plant, each once; it need not be the one that this run made, which is shown nowhere. A drill always ends with 0, but for
/// want of memory and a write that failed, so never with 6; and the files are left alone.
pub fn drills()
    ensures sound { IsSound parts NoMore DrillRow (0 ∷ 1 ∷ []) }
    ensures done { ZeroHasDrilled }
    ensures always { DrillEndsWithZero }
    ensures files { DrillsLeaveFiles }
{}
