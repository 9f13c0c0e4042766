//! What opening leaves of the files, whatever a form's parts are: each law is a function with nothing to do.

ghost use Rattle.command_rows.specs.OpenerLaws.{OpeningCounts, OpeningHasCause, OpeningLendsNone};
ghost use Rattle.command_rows.specs.OpenerLaws.{OpeningMakesNone, OpeningReadsFront};
ghost use Rattle.command_rows.specs.ShownLaws.{OpeningFollowsShown, OpeningGivesBack};
ghost use Rattle.command_rows.specs.ShownLaws.{OpeningLeavesOthers, ReadingCountsOn};
ghost use Rattle.command_rows.specs.ShownLaws.{ShownPlantsArePlants};

use plant_rules::a_plant_file_is_right;

/// Opening reads a front of a form's files, in order: all was well, but one that it tells of as missing or failed is the last.
/// What stops the run has its cause there, in what the files hold of it when its turn comes. The files' count of faults rises
/// by one exactly where a fault of theirs stops the run, and no sink and no disk is handed out.
pub fn opening()
    ensures front { OpeningReadsFront }
    ensures cause { OpeningHasCause }
    ensures counts { OpeningCounts }
    ensures makes_none { OpeningMakesNone }
    ensures lends_none { OpeningLendsNone }
{}

/// What the files show decides what opening leads to, unless memory runs out or the files have a fault. Behind files that were
/// read well each opening finds what the one behind them would have found. Every source is given back, and what is held of names
/// that the form doesn't have stays.
pub fn shown()
    ensures follows { OpeningFollowsShown }
    ensures counts { ReadingCountsOn }
    ensures sources { OpeningGivesBack }
    ensures others { OpeningLeavesOthers }
    ensures plants { ShownPlantsArePlants }
{
    a_plant_file_is_right();
}
