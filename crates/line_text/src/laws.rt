//! What is true of the lines of all texts, not only of those that a program reads.

ghost use Rattle.std.specs.Prelude.{ℕ, List};
ghost use Rattle.line_text.specs.Laws.{AreJoined, AreBehind, AreRead};

/// The lines of two texts with an LF between them stand one behind the other, where the first lacks its last LF. Where it has
/// it, no LF need be put.
pub fn texts_join()
    ensures joined { (front more : List ℕ) (last : ℕ) → AreJoined front last more }
    ensures behind { (front more : List ℕ) → AreBehind front more }
{}

/// A text of whole lines has these lines.
pub fn whole_lines_are_read()
    ensures { (whole : List (List ℕ)) → AreRead whole }
{}
