//! What holds of every message's frame and of every script.

ghost use Rattle.record_replay.specs.ScriptLaws.{MessageFramesAreItems};
ghost use Rattle.record_replay.specs.ScriptLaws.{TextsSpellTheirMessage, TextsSpellNoOther};
ghost use Rattle.record_replay.specs.ScriptLaws.{ScriptsReplayOrAreBad, ReplayTextsAreOne};
ghost use Rattle.record_replay.specs.ScriptLaws.{FirstBadsAreOne, BadsDoNotReplay};
ghost use Rattle.record_replay.specs.ScriptLaws.{ReplaysHaveHistory, HistoriesAreOne};
ghost use Rattle.record_replay.specs.ScriptLaws.{HistoriesShowReplays, TurnsAnswerItems};
ghost use Rattle.record_replay.specs.ScriptLaws.{TiesCarryOneSource};

/// The frame of a message is read as one good item with the message's DATA and no rest. These DATA spell the
/// message, and no other.
pub fn one_item()
    ensures item { MessageFramesAreItems }
    ensures own { TextsSpellTheirMessage }
    ensures only { TextsSpellNoOther }
{}

/// A script has a replay text on each plant or a first bad line there, never both, and one alone of either.
pub fn one_replay()
    ensures always { ScriptsReplayOrAreBad }
    ensures text { ReplayTextsAreOne }
    ensures line { FirstBadsAreOne }
    ensures apart { BadsDoNotReplay }
{}

/// Each replay has a legal history of its plant. It is made line by line, and behind each of them every panel's session is
/// one: the requests that it made fit the pieces that the script gave it, and what its lines show is its text of them. No
/// script has two such histories, and what one shows is the replay text.
pub fn one_history()
    ensures some { ReplaysHaveHistory }
    ensures alone { HistoriesAreOne }
    ensures text { HistoriesShowReplays }
{}

/// What is sent in a turn of a panel's session answers the items that end in its piece, in order, and then tells
/// notices. A frame is answered by NAK exactly where it is bad: a good one by ACK and message frames, an ACK by
/// nothing, a NAK by nothing or one message frame.
pub fn lines_answer_items()
    ensures { TurnsAnswerItems }
{}

/// At each place of the history behind a replay's text no tie carries two sources: behind each front of its entries the
/// sources of one pool that stand in the plant have one tie exactly where they stand for one origin.
pub fn no_tie_carries_two_sources()
    ensures { TiesCarryOneSource }
{}
