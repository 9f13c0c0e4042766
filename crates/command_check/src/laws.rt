//! What the status of a check tells, as a law over the ends of its row.

ghost use Rattle.std.specs.Prelude.{[], ◌∷◌};
ghost use Rattle.command_words.specs.Parts.{NoMore};
ghost use Rattle.command_rows.specs.Sound.{IsSound};
ghost use Rattle.command_check.specs.Check.{CheckRow, parts};
ghost use Rattle.command_check.specs.Laws.{PlantEndsWithZero, ZeroHasChecked};

/// Status 0: exactly the plant's ten lines were appended. A plant that the files show always leads to it, unless memory runs out,
/// the files fail or a write does. A check has no other status of its own but 0 and 1.
pub fn checks()
    ensures sound { IsSound parts NoMore CheckRow (0 ∷ 1 ∷ []) }
    ensures done { ZeroHasChecked }
    ensures always { PlantEndsWithZero }
{}
