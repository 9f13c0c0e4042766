//! What the exit statuses tell of a quiet run, each as a law over the ends of runs. What a command adds of its own are the laws of
//! its crate.

ghost use Rattle.command_rows.specs.RowLaws.{FourHasCause, GivenIsWorked};
ghost use Rattle.command_rows.specs.RowLaws.{MissingFirstEndsWithThree, NoRowTellsUsage};
ghost use Rattle.command_rows.specs.RowLaws.{OneHasCause, RowsHaveCause, RowsLeaveAll};
ghost use Rattle.command_rows.specs.RowLaws.{RowsWriteAll, SevenHasCause, StopsAreTold};
ghost use Rattle.commands.specs.QuietLaws.{AskedRuns, NoFormEndsWithTwo, OfEachRow};
ghost use Rattle.commands.specs.QuietLaws.{QuietLeaves, QuietSevenHasCause, QuietWritesAll};
ghost use Rattle.commands.specs.QuietLaws.{ReplaysShowHistories, RowsAreSilent};
ghost use Rattle.commands.specs.QuietLaws.{RowsHaveTheirStatuses, StatusesAreKnown};
ghost use Rattle.commands.specs.QuietLaws.{TwoHasNoForm, TwoTellsUsage, WorkIsDone};

use command_replay::replays;

/// Of the row of each command, whatever its parts are. Its run ended at its inputs, with exactly the line of that, or as the row
/// promises, with exactly the text of that, or a write failed. Status 1: nothing but the line that says so was appended, by
/// `keep` alone behind its output lines, and memory ran out at a file that may be here, behind others that were read well, or
/// behind all. Status 4: a plant's file has a fault or is too long; no file behind it was opened. Where the files show that opening is stopped, by a file that is missing, by
/// a plant that is refused, or by a length, the run always ends with the line of that, and where they show what is given, the row
/// is always worked with that; unless memory runs out, the files fail or a write does. If the first file is shown to be missing,
/// memory is no cause.
pub fn each_row()
    ensures cause { OfEachRow RowsHaveCause }
    ensures statuses { RowsHaveTheirStatuses }
    ensures memory { OfEachRow OneHasCause }
    ensures silent { RowsAreSilent }
    ensures usage { OfEachRow NoRowTellsUsage }
    ensures plant { OfEachRow FourHasCause }
    ensures stops { OfEachRow StopsAreTold }
    ensures given { OfEachRow GivenIsWorked }
    ensures missing { OfEachRow MissingFirstEndsWithThree }
    ensures failed { OfEachRow SevenHasCause }
    ensures others { OfEachRow RowsWriteAll }
    ensures left { OfEachRow RowsLeaveAll }
{}

/// Words that ask for a quiet command run its row, unless memory runs out before any file is opened. So what is said of runs of a
/// row is said of runs with such words.
pub fn asked()
    ensures { AskedRuns }
{}

/// No other status is answered than 0 to 7. Of 0 and 6, a row was worked that has such a status of its own: 6 is of audits and
/// standbys alone.
pub fn statuses()
    ensures known { StatusesAreKnown }
    ensures worked { WorkIsDone }
{}

/// Status 0 of a replay whose script and plant the files show: behind the lines that were appended stands a legal history of
/// the plant, from its start, and no other has the script's work. What is sent in a turn answers the items that end in its
/// piece, a frame by NAK exactly where its length or its check byte is wrong, and at no place does a tie carry two sources.
pub fn history_shown()
    ensures { ReplaysShowHistories }
{
    replays();
}

/// Status 2: exactly where the words ask for no quiet command, unless the line could not be written.
pub fn usage_told()
    ensures no_form { TwoHasNoForm }
    ensures line { TwoTellsUsage }
    ensures always { NoFormEndsWithTwo }
{}

/// Status 7: only where a write of the output failed, and no write failed behind any other status.
pub fn output_fault()
    ensures failed { QuietSevenHasCause }
    ensures others { QuietWritesAll }
{}

/// Whatever the status, each source and each sink was given back, no sink was made but that of a file that the words ask to make, the
/// files hold what they held of each name that the words don't name, and their count of faults stayed, unless the status is 3 or 7,
/// where it may have risen by one.
pub fn files_stay()
    ensures { QuietLeaves }
{}
