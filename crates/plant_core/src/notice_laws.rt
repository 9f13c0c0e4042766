//! What is true of the notices of every valid state: who gets them, and who is told for them.

ghost use Rattle.plant_core.specs.NoticeLaws.{SourcesAreHeard, OwnersAreHeard};
ghost use Rattle.plant_core.specs.NoticeLaws.{GoesAreHeard, OthersAreQuiet};
ghost use Rattle.plant_core.specs.NoticeLaws.{PollsTell, PollsOfNoneAreSilent};
ghost use Rattle.plant_core.specs.NoticeLaws.{OthersLeaveNotices, NoticesStandUntilTold};
ghost use Rattle.plant_core.specs.NoticeLaws.{PollsTellInOrder, PollsLeaveTheRest};
ghost use Rattle.plant_core.specs.NoticeLaws.{LeavesAreHeeded, LeaversStayAway};
ghost use Rattle.plant_core.specs.NoticeLaws.{LeaversHearNothing, LeaversAreServed};

/// A connect that changes a source, and a protect or a lift that changes an owner, gives notice of it to all other panels
/// that haven't left, and to nobody else. A go gives notice of the sources that it changes to the asker too. What changes
/// neither a source nor an owner gives none.
pub fn changes_are_noticed()
    ensures sources { SourcesAreHeard }
    ensures owners { OwnersAreHeard }
    ensures goes { GoesAreHeard }
    ensures quiet { OthersAreQuiet }
{}

/// A poll of a panel that has a notice tells it of one destination, with the source that stands there or its owner, and takes
/// this notice alone. Where the panel has none, a poll has no answer and changes nothing.
pub fn polls_tell_one_notice()
    ensures told { PollsTell }
    ensures nothing { PollsOfNoneAreSilent }
{}

/// A notice stands until its own panel is told of the destination by a poll, or leaves: no event of another panel takes
/// it away, whatever is asked.
pub fn notices_stand_until_told()
    ensures others { OthersLeaveNotices }
    ensures told { NoticesStandUntilTold }
{}

/// With no other event between, polls tell a panel of its notices in their order, each once, with what stands by then.
pub fn polls_go_in_order()
    ensures answers { PollsTellInOrder }
    ensures left { PollsLeaveTheRest }
{}

/// Whoever has left has no notices and gets none ever after, so that no poll tells it of a change. It is answered as
/// before, and still changes the plant.
pub fn whoever_left_hears_nothing()
    ensures leaves { LeavesAreHeeded }
    ensures stays { LeaversStayAway }
    ensures silent { LeaversHearNothing }
    ensures served { LeaversAreServed }
{}
