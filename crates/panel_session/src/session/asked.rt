//! What an item asks of a session.

ghost use Rattle.std.specs.Prelude.{◌≡◌, ℕ, ◌<◌, ◌≤◌, List, Option, Some, length, take};
ghost use Rattle.dle_framing.specs.Feeding.{shown};
ghost use Rattle.dle_framing.specs.Framer.{StandsFor, GoesOver};
ghost use Rattle.panel_session.specs.Asked.{Asks, GoodAsks};
ghost use Rattle.panel_session.specs.AskedInside.{FoundAsks, NamesInRange};

use dle_framing::{Framer, Item};
use swp08_messages::{Message, MessageKind};

/// What one item asks.
#[derive(Clone, Copy)]
pub(crate) enum Asked {
    /// Nothing.
    Nothing,
    /// That the last message frame is sent again.
    Repeat,
    /// That the bad frame is sent again, by a NAK.
    Refused,
    /// That a good frame is acknowledged.
    Noted,
    /// That a good frame is acknowledged, and answered by the pages of names that this message asks for.
    Named(Message),
    /// That a good frame is acknowledged, and the plant is sent this message.
    Sent(Message),
}

// Takes the next piece of the stream up to the end of its first item. It answers how many bytes it used, and what the item
// asks, `None` where none ends in the piece.
pub(crate) fn next_asked(framer: &mut Framer, piece: &[u8]) -> (usize, Option<Asked>)
    ensures stands { GoesOver (take result.0 piece.now) framer.old framer.new }
    ensures within { result.0 ≤ length piece.now }
    ensures progress { 0 < length piece.now → 0 < result.0 }
    ensures finds { (text : List ℕ) → StandsFor framer.old text
        → FoundAsks text piece.now result.0 result.1 }
    ensures names { NamesInRange result.1 }
{
    let (used, item) = framer.feed(piece);
    match item {
        Some(item) => (used, Some(asked_by(item))),
        None => (used, None),
    }
}

// What an item asks.
fn asked_by(item: Item<&[u8]>) -> Asked
    ensures asks { Asks (shown item.entry) result }
    ensures names { NamesInRange (Some result) }
{
    match item {
        Item::Good(carried) => asked_by_good(carried),
        Item::Bad => Asked::Refused,
        Item::Ack => Asked::Nothing,
        Item::Nak => Asked::Repeat,
    }
}

// What a good frame with these DATA asks.
fn asked_by_good(carried: &[u8]) -> Asked
    ensures asks { GoodAsks carried.now result }
    ensures names { NamesInRange (Some result) }
{
    let Ok(message) = Message::read(carried) else {
        return Asked::Noted;
    };
    match message.kind() {
        MessageKind::Plant => Asked::Sent(message),
        MessageKind::Names => Asked::Named(message),
        MessageKind::Report => Asked::Noted,
    }
}
