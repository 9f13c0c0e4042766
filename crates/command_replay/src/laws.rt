//! What the status of a replay tells, as a law over the ends of its row.

ghost use Rattle.std.specs.Prelude.{[], ◌∷◌};
ghost use Rattle.command_words.specs.Parts.{NoMore};
ghost use Rattle.command_rows.specs.Sound.{IsSound};
ghost use Rattle.command_replay.specs.Replay.{ReplayRow, parts};
ghost use Rattle.command_replay.specs.Laws.{AcceptedEndsWithZero, BadLineEndsWithFive};
ghost use Rattle.command_replay.specs.Laws.{FiveHasRefused, ReplaysShowHistories};
ghost use Rattle.command_replay.specs.Laws.{ZeroHasReplayed};

use record_replay::{lines_answer_items, one_history};

/// Status 0: exactly the script's replay text was appended, and in the history behind it no tie ever carries two sources. Of a script
/// and a plant that the files show, behind the lines that were appended stands a legal history of the plant, from its start, and no
/// other has the script's work: what is sent in a turn answers the items that end in its piece, a frame by NAK exactly where its
/// length or its check byte is wrong. Status 5: the first line without a form, or the script's length. A script that is refused is
/// never replayed, and one that is accepted is never refused. A replay has no other status of its own but 0, 1 and 5.
pub fn replays()
    ensures sound { IsSound parts NoMore ReplayRow (0 ∷ 1 ∷ 5 ∷ []) }
    ensures done { ZeroHasReplayed }
    ensures refused { FiveHasRefused }
    ensures accepted { AcceptedEndsWithZero }
    ensures bad { BadLineEndsWithFive }
    ensures shown { ReplaysShowHistories }
{
    one_history();
    lines_answer_items();
}
