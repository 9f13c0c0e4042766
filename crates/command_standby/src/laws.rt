//! What the status of a run of `standby` tells, as a law over the ends of its row.

ghost use Rattle.std.specs.Prelude.{[], ◌∷◌};
ghost use Rattle.command_rows.specs.Sound.{IsSound};
ghost use Rattle.command_standby.specs.Standby.{StandbyRow, last, parts};
ghost use Rattle.command_standby.specs.Laws.{FiveHasRefused, LinesEndRuns};
ghost use Rattle.command_standby.specs.Laws.{SixHasDifference, ZeroHasTaken};

use command_rows::shown;

/// Status 0: all that the lines tell came to the standby, and it was said where that stands. Status 5: the first line that tells
/// nothing that may come, or the traces' length together. Status 6: another request was kept for a position. Traces that the
/// files show with their plant always lead to the one status that their lines do, unless memory runs out, the files fail or a
/// write does.
pub fn standbys()
    ensures sound { IsSound parts last StandbyRow (0 ∷ 1 ∷ 5 ∷ 6 ∷ []) }
    ensures done { ZeroHasTaken }
    ensures refused { FiveHasRefused }
    ensures found { SixHasDifference }
    ensures always { LinesEndRuns }
{
    shown();
}
