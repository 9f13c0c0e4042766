//! What the status of a keep tells, as a law over the ends of its row.

ghost use Rattle.std.specs.Prelude.{[], ◌∷◌};
ghost use Rattle.command_words.specs.Parts.{NoMore};
ghost use Rattle.command_rows.specs.Sound.{IsSound};
ghost use Rattle.command_keep.specs.Keep.{KeepRow, parts};
ghost use Rattle.command_keep.specs.Laws.{FiveHasRefused, OneHadNoMemory, ShownIsKept};
ghost use Rattle.command_keep.specs.Laws.{ThreeHasFault, ZeroHasKept};

/// Status 0: all works of the script were done and saved from the state that the store stood for, whatever a crash leaves stands for
/// the state behind them, and exactly their output lines and the number were appended. Status 1: memory ran out, and what was
/// written whole is saved. Status 3: a file is missing or failed. Status 5: the store was refused or is full, a line has no form, or
/// the script is too long. A keep has no other status of its own. A store and a script that the files show always lead to 0 if
/// there is room for all works, and else fill the store, unless memory runs out, the files fail or a write does.
pub fn keeps()
    ensures sound { IsSound parts NoMore KeepRow (0 ∷ 1 ∷ 3 ∷ 5 ∷ []) }
    ensures done { ZeroHasKept }
    ensures memory { OneHadNoMemory }
    ensures fault { ThreeHasFault }
    ensures refused { FiveHasRefused }
    ensures always { ShownIsKept }
{}
