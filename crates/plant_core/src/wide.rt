//! Which numbers the commands can tell that aren't extended, and by which messages a crosspoint is told.

ghost use Rattle.std.specs.Prelude.{◌≡◌};
ghost use Rattle.plant_core.specs.Wide as wide;

use plant_config::Level;
use swp08_messages::{Message, PARKED, Point};

// The destinations of a level that those commands can tell are numbered below this.
const SHORT_DESTS: u16 = 1024;

/// Whether the commands that aren't extended can tell the number of a destination in its level: those below 1024.
pub fn is_short_dest(number: u16) -> bool
    ensures { result ≡ wide.is_short_dest number }
{
    number < SHORT_DESTS
}

/// Whether those commands can tell the source of a destination by its number in its level: those below 1023, and `None`, for
/// a parked one.
pub fn is_short_source(source: Option<u16>) -> bool
    ensures { result ≡ wide.is_short_source source }
{
    match source {
        Some(number) => number < PARKED,
        None => true,
    }
}

/// Whether a level has more destinations or more sources than they can tell.
pub(crate) fn is_wide(level: &Level) -> bool
    ensures { result ≡ wide.is_wide level.now }
{
    u32::from(SHORT_DESTS) < level.destinations || u32::from(PARKED) < level.sources
}

/// What answers whoever interrogates a place, by an extended command or another.
#[inline(always)]
pub(crate) fn tells_source(extended: bool, at: Point, source: Option<u16>) -> Message
    ensures { result ≡ wide.tells_source extended at source }
{
    if extended || !is_short_source(source) {
        Message::ExtTally { at, source }
    } else {
        Message::Tally { at, source }
    }
}

/// What answers a connect that is made, by an extended command or another.
#[inline]
pub(crate) fn tells_change(extended: bool, at: Point, source: Option<u16>) -> Message
    ensures { result ≡ wide.tells_change extended at source }
{
    if extended {
        Message::ExtConnected { at, source }
    } else {
        Message::Connected { at, source }
    }
}

/// What a panel is told of a source that changed.
#[inline]
pub(crate) fn connected_of(at: Point, source: Option<u16>) -> Message
    ensures { result ≡ wide.connected_of at source }
{
    tells_change(
        !(is_short_dest(at.dest) && is_short_source(source)),
        at,
        source,
    )
}
