//! Many pieces of a stream, one after the other.
ghost use Rattle.std.specs.Prelude.{◌≡◌, ℕ, ◌<◌, ◌≤◌, ◌++◌, List, [], length};
ghost use Rattle.std.specs.Prelude.{take, map, IfOk, OnOk};
ghost use Rattle.dle_framing.specs.Feeding.{joined, shown};
ghost use Rattle.dle_framing.specs.Framer.{StandsFor, GoesOver};
ghost use Rattle.dle_framing.specs.Items.{items};
ghost use Rattle.dle_framing.specs.Owned.{owned};
ghost use Rattle.dle_framing.specs.FramerInside.{AddsOnto};

use crate::framer::Framer;
use crate::item::Item;
use std::alloc::{AllocError, Global};

/// Feeds pieces to a framer, one after the other, and gives their items with copies of the DATA. However a text is cut
/// into pieces, a new framer gives the items of the text. Where memory runs out, the framer is somewhere in the pieces
/// and should be reset. It is for tests and tools.
pub fn feed_all(
    alloc: Global,
    framer: &mut Framer,
    pieces: &[&[u8]],
) -> Result<Vec<Item<Vec<u8>>>, AllocError>
    ensures items { IfOk result (λ given. (text : List ℕ) → StandsFor framer.old text
        → items (text ++ joined pieces.now) ≡ items text ++ map owned given.items) }
    ensures stands { OnOk result (GoesOver (joined pieces.now) framer.old framer.new) }
    ensures anew { StandsFor framer.old []
        → IfOk result (λ given. map owned given.items ≡ items (joined pieces.now)) }
{
    let mut given = Vec::new(alloc);
    for piece in pieces {
        feed_piece(alloc, framer, piece, &mut given)?;
    }
    Ok(given)
}

// Feeds a piece, and appends its items.
fn feed_piece(
    alloc: Global,
    framer: &mut Framer,
    piece: &[u8],
    given: &mut Vec<Item<Vec<u8>>>,
) -> Result<(), AllocError>
    ensures { OnOk result (AddsOnto piece.now framer.old (map owned given.old.items)
        framer.new (map owned given.new.items)) }
{
    let mut used = 0;
    while used < piece.len() {
        used += feed_once(alloc, framer, &piece[used..], given)?;
    }
    Ok(())
}

// Feeds a piece up to the first item that ends in it, appends that, and answers how many bytes were used.
fn feed_once(
    alloc: Global,
    framer: &mut Framer,
    piece: &[u8],
    given: &mut Vec<Item<Vec<u8>>>,
) -> Result<usize, AllocError>
    ensures within { IfOk result (λ used. used ≤ length piece.now) }
    ensures progress { 0 < length piece.now → IfOk result (λ used. 0 < used) }
    ensures adds { IfOk result (λ used. AddsOnto (take used piece.now)
        framer.old (map owned given.old.items) framer.new (map owned given.new.items)) }
{
    let (used, item) = framer.feed(piece);
    if let Some(item) = item {
        given.push(copied(alloc, item)?)?;
    }
    Ok(used)
}

// An item with a copy of its DATA.
fn copied(alloc: Global, item: Item<&[u8]>) -> Result<Item<Vec<u8>>, AllocError>
    ensures { IfOk result (λ copy. owned copy ≡ shown item.entry) }
{
    Ok(match item {
        Item::Good(carried) => Item::Good(carried.to_vec(alloc)?),
        Item::Bad => Item::Bad,
        Item::Ack => Item::Ack,
        Item::Nak => Item::Nak,
    })
}
