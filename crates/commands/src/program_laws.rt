//! What the exit statuses tell of a run of the whole program, each as a law over its ends, for the display ports of any net.

ghost use Rattle.commands.specs.ProgramLaws.{AskedWaits, EightIsOfServices};
ghost use Rattle.commands.specs.ProgramLaws.{NoFormEndsProgramWithTwo, OthersLeaveNet};
ghost use Rattle.commands.specs.ProgramLaws.{OthersRunQuietly, ProgramSevenHasCause};
ghost use Rattle.commands.specs.ProgramLaws.{ProgramTwoTellsUsage, ProgramWritesAll};
ghost use Rattle.commands.specs.ProgramLaws.{ZeroServesWhole};

use ctl_net::DisplayPort;

/// Status 0 of a service: in one closed history every panel was served whole. Each session ended as its link did, at the end of
/// what that had, and the link was written the whole text of that session; no acceptor has a session left; the displays lost no
/// packet. At no place of the history does a tie carry two sources, and at each the lamps are those that are found from what the
/// destinations carry. All traces together have the lines of the history, each once.
pub fn served_whole<P: DisplayPort>()
    ensures { ZeroServesWhole P.was_sent P.faults }
{
    command_serve::served_whole::<P>();
}

/// Words that ask for a drill or a service run its row: what is said of the runs of that, by the laws of its crate, is said of runs
/// with such words. Other words run as quiet ones do. Words that ask for no service leave the net alone, and 8 and 9 are the
/// statuses of services alone.
pub fn waits<P: DisplayPort>()
    ensures asked { AskedWaits P.was_sent P.faults }
    ensures others { OthersRunQuietly P.was_sent P.faults }
    ensures net { OthersLeaveNet P.was_sent P.faults }
    ensures services { EightIsOfServices P.was_sent P.faults }
{}

/// Status 2: exactly where the words have no form, that of a drill and of a service among them, unless the line could not be
/// written.
pub fn program_usage<P: DisplayPort>()
    ensures told { ProgramTwoTellsUsage P.was_sent P.faults }
    ensures always { NoFormEndsProgramWithTwo P.was_sent P.faults }
{}

/// Status 7: only where a write of the output failed, and no write failed behind any other status.
pub fn program_output<P: DisplayPort>()
    ensures failed { ProgramSevenHasCause P.was_sent P.faults }
    ensures others { ProgramWritesAll P.was_sent P.faults }
{}
