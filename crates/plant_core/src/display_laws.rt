//! What is true of displays in every valid state: what changes their values, and what polls of their screens tell.

ghost use Rattle.plant_core.specs.DisplayLaws.{SourcesMakeValues, OthersMoveNothing};
ghost use Rattle.plant_core.specs.DisplayLaws.{OthersLeaveValues};
ghost use Rattle.plant_core.specs.DisplayLaws.{PollsAreQuiet, LampsAreOfThoseThatDiffer};
ghost use Rattle.plant_core.specs.DisplayLaws.{FinishedIsTold, FinishedIsTrue};
ghost use Rattle.plant_core.specs.DisplayLaws.{TurnsTellInOrder, TurnsLeaveTheRest};
ghost use Rattle.plant_core.specs.DisplayLaws.{EnoughTurnsTellAll, EachDiffersOnce};
ghost use Rattle.plant_core.specs.DisplayLaws.{RefreshesTellAll, RefreshesLeaveTheRest};
ghost use Rattle.plant_core.specs.DisplayLaws.{OtherScreensStay};

/// What displays show follows from what the destinations carry: where these carry what they carried, each display has the
/// value that it had. Only a connect and a go that takes a group change what a destination carries, so every other event
/// leaves each display its value.
pub fn only_changes_move_lamps()
    ensures values { SourcesMakeValues }
    ensures sources { OthersMoveNothing }
    ensures others { OthersLeaveValues }
{}

/// A display poll tells no lamp exactly where, after its refresh, no display of the screen differs. A lamp that it tells is of
/// a display of the screen that differed, has its value, and behind the poll the display doesn't differ.
pub fn polls_are_quiet_where_nothing_differs()
    ensures quiet { PollsAreQuiet }
    ensures lamps { LampsAreOfThoseThatDiffer }
{}

/// A display poll is answered that all is finished, and by this alone, exactly where, after its refresh, no display of any
/// screen differs and every panel has left.
pub fn polls_tell_when_all_is_finished()
    ensures told { FinishedIsTold }
    ensures only { FinishedIsTrue }
{}

/// With no other event between, polls of a screen tell the displays that differ in their order, each once, 64 a poll. As many
/// polls as n displays need, n / 64 + 1, leave none that differs.
pub fn polls_tell_each_once()
    ensures told { TurnsTellInOrder }
    ensures left { TurnsLeaveTheRest }
    ensures all { EnoughTurnsTellAll }
    ensures once { EachDiffersOnce }
{}

/// A poll with a refresh tells the first 64 displays of its screen as if none had ever been shown a value, and leaves the
/// others of the screen to be told. What displays of other screens were shown stays.
pub fn a_refresh_tells_all()
    ensures told { RefreshesTellAll }
    ensures left { RefreshesLeaveTheRest }
    ensures others { OtherScreensStay }
{}
