//! What the status of a format tells, as a law over the ends of its row.

ghost use Rattle.std.specs.Prelude.{[], ◌∷◌};
ghost use Rattle.command_words.specs.Parts.{NoMore};
ghost use Rattle.command_rows.specs.Sound.{IsSound};
ghost use Rattle.command_format.specs.Format.{FormatRow, parts};
ghost use Rattle.command_format.specs.Laws.{PlantEndsWithZero, ThreeHasFault, ZeroHasFormatted};

/// Status 0: the store stands for the start, whatever a crash leaves, and exactly the line of its size was appended. Status 3: a
/// file that was read, or the store's disk failed. A plant that the files show always leads to 0, unless memory runs out, the files
/// fail or a write does. A format has no other status of its own but 0 and 3.
pub fn formats()
    ensures sound { IsSound parts NoMore FormatRow (0 ∷ 3 ∷ []) }
    ensures done { ZeroHasFormatted }
    ensures fault { ThreeHasFault }
    ensures always { PlantEndsWithZero }
{}
