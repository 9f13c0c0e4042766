//! What is true of every plant that was served.

ghost use Rattle.panel_server.specs.TracesShare.{TracesShareHistory};

use ctl_net::DisplayPort;
use history_lock::seats_share_history;
use plant_core::PlantState;

/// Where no write of a trace failed, the traces of a plant that was served have the line of each entry of its closed history at
/// its position, each once.
pub fn traces_share_history<P: DisplayPort>()
    ensures { TracesShareHistory P.was_sent P.faults }
{
    seats_share_history::<PlantState>();
}
