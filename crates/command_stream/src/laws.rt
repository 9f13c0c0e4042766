//! What the status of a replay with a stream tells, as a law over the ends of its row.

ghost use Rattle.std.specs.Prelude.{[], ◌∷◌};
ghost use Rattle.command_words.specs.Parts.{NoMore};
ghost use Rattle.command_rows.specs.Sound.{IsSound};
ghost use Rattle.command_stream.specs.Stream.{StreamRow, parts};
ghost use Rattle.command_stream.specs.Laws.{AcceptedEndsWithZero, BadLineEndsWithFive};
ghost use Rattle.command_stream.specs.Laws.{FiveHasRefused, StreamsShowHistories};
ghost use Rattle.command_stream.specs.Laws.{ThreeHasFault, ZeroHasStreamed};

use record_replay::{lines_answer_items, one_history};

/// Status 0: the stream's file was given just the packets that the displays are told in the script's replay, exactly whose text was
/// appended; of a script and a plant that the files show, that shows a legal history, and no other has the script's work. Status 3: a
/// file that was read, or the stream's own failed. Status 5: the first line without a form, or the script's length. A script that is
/// refused is never replayed, and one that is accepted is never refused. It has no other status of its own but 0, 1, 3 and 5.
pub fn streams()
    ensures sound { IsSound parts NoMore StreamRow (0 ∷ 1 ∷ 3 ∷ 5 ∷ []) }
    ensures done { ZeroHasStreamed }
    ensures fault { ThreeHasFault }
    ensures refused { FiveHasRefused }
    ensures accepted { AcceptedEndsWithZero }
    ensures bad { BadLineEndsWithFive }
    ensures shown { StreamsShowHistories }
{
    one_history();
    lines_answer_items();
}
