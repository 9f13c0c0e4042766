//! What the status of a service tells, each as a law over the ends of its row, for the display ports of any net.

ghost use Rattle.std.specs.Prelude.{[], ◌∷◌};
ghost use Rattle.command_words.specs.Parts.{Prefix};
ghost use Rattle.panel_server.specs.PlantServed.{NetData};
ghost use Rattle.command_rows.specs.RowLaws.{MissingFirstEndsWithThree, StopsAreTold};
ghost use Rattle.command_serve.specs.Serve.{ServeRow, parts};
ghost use Rattle.command_serve.specs.Laws.{EightHasCause, NineMetLimits};
ghost use Rattle.command_serve.specs.Laws.{RefusedNetEndsWithEight, ServiceStatusesAreKnown};
ghost use Rattle.command_serve.specs.Laws.{ServicesAreRows, ServicesHaveCauses};
ghost use Rattle.command_serve.specs.Laws.{ShownPlantIsServed, ZeroHasServed};
ghost use Rattle.command_serve.specs.Whole.{ZeroServesWhole};

use ctl_net::DisplayPort;
use panel_server::traces_share_history;
use plant_core::{histories_stay_valid, polls_are_quiet_where_nothing_differs, states_stay_valid};

/// Status 0: the plant was served, so that there is a closed history in which that was done, no trace failed, the net had no fault, no
/// limit was met, and exactly the lines of it were appended. A service ends with 0, 1, 3, 4, 7, 8 or 9. With a plant that the files
/// show it always ends with 0 or 9, but for want of memory and what a count of the files, of the output or of the net shows.
pub fn served<P: DisplayPort>()
    ensures done { ZeroHasServed P.was_sent P.faults }
    ensures statuses { ServiceStatusesAreKnown P.was_sent P.faults }
    ensures accepted { ShownPlantIsServed P.was_sent P.faults }
{}

/// Status 8: the net refused an opening, or the plant was served and the net had a fault. A count of its own rose. An opening that the
/// net refused always leads to it, unless the line could not be written.
pub fn net_failed<P: DisplayPort>()
    ensures cause { EightHasCause P.was_sent P.faults }
    ensures always { RefusedNetEndsWithEight P.was_sent P.faults }
{}

/// Status 9: the plant was served, and a session or the worker of the displays ended by a limit, where no trace failed and the net
/// had no fault.
pub fn limits_met<P: DisplayPort>()
    ensures { NineMetLimits P.was_sent P.faults }
{}

/// Status 0: in one closed history every panel was served whole. Each session ended as its link did, at the end of what that had,
/// and the link was written the whole text of that session; no acceptor has a session left; the displays lost no packet. At no place
/// of the history does a tie carry two sources, and at each the lamps are those that are found from what the destinations carry. All
/// traces together have the lines of the history, each once.
pub fn served_whole<P: DisplayPort>()
    ensures { ZeroServesWhole P.was_sent P.faults }
{
    states_stay_valid();
    histories_stay_valid();
    polls_are_quiet_where_nothing_differs();
    traces_share_history::<P>();
}

/// Why a service ends with each of its statuses. What was done where the plant was served leads to 0, 3, 8 or 9, each exactly where
/// its cause stands. A service is a row: a plant's file that the files show to be missing always leads to 3, and one that is refused
/// to 4, unless the run is kept from its end.
pub fn services_have_causes<P: DisplayPort>()
    ensures causes { ServicesHaveCauses P.was_sent P.faults }
    ensures rows { ServicesAreRows P.was_sent P.faults }
    ensures stops { (net net_then : NetData P)
        → StopsAreTold parts Prefix (ServeRow P.was_sent P.faults net net_then) }
    ensures missing { (net net_then : NetData P)
        → MissingFirstEndsWithThree parts Prefix (ServeRow P.was_sent P.faults net net_then) }
{}
