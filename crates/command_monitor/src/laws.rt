//! What the status of telling a recorded stream tells, as a law over the ends of its row.

ghost use Rattle.std.specs.Prelude.{[], ◌∷◌};
ghost use Rattle.command_words.specs.Parts.{NoMore};
ghost use Rattle.command_rows.specs.Sound.{IsSound};
ghost use Rattle.command_monitor.specs.Monitor.{MonitorRow, parts};
ghost use Rattle.command_monitor.specs.Laws.{StreamEndsWithZero, ZeroHasTold};

/// Status 0: exactly the lines of the stream's items were appended. A stream that the files show, and that isn't too long, always
/// leads to it, unless memory runs out, the files fail or a write does. It has no other status of its own but 0 and 1.
pub fn tells()
    ensures sound { IsSound parts NoMore MonitorRow (0 ∷ 1 ∷ []) }
    ensures done { ZeroHasTold }
    ensures always { StreamEndsWithZero }
{}
