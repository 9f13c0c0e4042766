//! What is true of every step from every valid state, not only of those that a program makes.

ghost use Rattle.plant_core.specs.Laws.{StartsAreValid, StepsStayValid};
ghost use Rattle.plant_core.specs.Laws.{StartsAreShort, StepsStayShort};
ghost use Rattle.plant_core.specs.Laws.{StepsKeepThePlant, ChangesStayValid, StartsBegin};
ghost use Rattle.plant_core.specs.Laws.{ConnectablesAreMade, OthersAreNotMade, ConnectsStand};
ghost use Rattle.plant_core.specs.Laws.{QuestionsChangeNothing, StartsAnswerParked};
ghost use Rattle.plant_core.specs.Laws.{OutsidersAnswerParked};
ghost use Rattle.plant_core.specs.Laws.{DumpsTellWhatStands};
ghost use Rattle.plant_core.specs.Laws.{AnswersAreFew, AnswersAreSayable};
ghost use Rattle.plant_core.specs.Laws.{AnswersFit, RoomsAreBounded};
ghost use Rattle.plant_core.specs.Laws.{ItemsHaveNoEffect, PollNumbersHaveNoEffect};

/// The state at the start is valid, every step leaves a valid state, and no step changes the plant. A list of changes for
/// which the ties are enough leaves a valid state too. At the start, and after each request that fits, the commands that
/// aren't extended can tell what they alone can reach. So histories of a plant may begin at its start.
pub fn states_stay_valid()
    ensures first { StartsAreValid }
    ensures stays { StepsStayValid }
    ensures first_short { StartsAreShort }
    ensures short { StepsStayShort }
    ensures plant { StepsKeepThePlant }
    ensures changes { ChangesStayValid }
    ensures begins { StartsBegin }
{}

/// A connect is made exactly where its place is in the plant, its source is parked or in that level, no device but the
/// panel's protects the place, and the ties that the panel may use are enough. Else nothing changes, and the source that
/// stands is the answer.
pub fn connects_are_made()
    ensures made { ConnectablesAreMade }
    ensures not_made { OthersAreNotMade }
{}

/// A connect that is made stands: whatever is asked behind it, each interrogate of its place is answered with its source,
/// until that place is connected again or a group is taken.
pub fn connects_stand()
    ensures { ConnectsStand }
{}

/// A message that only asks changes nothing. Before the first connect, and where the plant has no such place, an interrogate
/// is answered with 'parked'.
pub fn questions_only_ask()
    ensures same { QuestionsChangeNothing }
    ensures first { StartsAnswerParked }
    ensures outside { OutsidersAnswerParked }
{}

/// A dump of a level that isn't wide tells the source that stands at each destination of the level, in order, and of no
/// other. One of a wide level tells nothing. A dump changes nothing.
pub fn dumps_tell_what_stands()
    ensures { DumpsTellWhatStands }
{}

/// A message that asks for a dump has an answer for each destination of its level, if this isn't wide, the store of an entry
/// at most one, any other that asks something has one, a poll at most one, a leave none, and a display poll at most 64. From
/// a valid state of which the commands that aren't extended can tell what they alone can reach, each answer can be spelled.
/// No request has more answers than there has to be room for, and no plant asks for room for more than 1,024.
pub fn answers_are_few()
    ensures count { AnswersAreFew }
    ensures sayable { AnswersAreSayable }
    ensures within { AnswersFit }
    ensures room { RoomsAreBounded }
{}

/// The numbers of items and turns have no effect.
pub fn numbers_have_no_effect()
    ensures told { ItemsHaveNoEffect }
    ensures poll { PollNumbersHaveNoEffect }
{}
