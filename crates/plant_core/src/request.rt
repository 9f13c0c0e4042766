//! What happens to a plant.

use plant_config::PanelNo;
use swp08_messages::Message;

/// One event of the plant. The numbers of items and turns say where in a panel's session the event came, and have no
/// effect.
#[derive(Clone, Copy, Debug, PartialEq, Eq)]
pub enum Request {
    /// A panel sent this message, as the item of this number of its session.
    Told {
        panel: PanelNo,
        item: u64,
        message: Message,
    },
    /// A panel may be told of a change, after so many items of its session, in the turn of this number.
    Poll {
        panel: PanelNo,
        at: u64,
        turn: u64,
    },
    /// A panel has left, and is told of no changes from now on.
    Leave {
        panel: PanelNo,
    },
    /// A screen, 0 to 65534, may be shown what changed of its displays, or with a refresh what all of them show.
    DisplayPoll {
        screen: u16,
        refresh: bool,
    },
}
