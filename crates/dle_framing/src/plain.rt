//! The plain reader of a whole text: its definition again as a program, one start after the other.
ghost use Rattle.std.specs.Prelude.{◌≡◌, [], ◌∷◌, map, MatchOption, IfOk};
ghost use Rattle.dle_framing.specs.Items.{item_of, items, longest_run, rest};
ghost use Rattle.dle_framing.specs.Owned.{owned};
ghost use Rattle.dle_framing.specs.PlainInside.{IsSplit, StartsSo};

use crate::body::is_good_body;
use crate::control::{ACK, DLE, ETX, NAK, STX};
use crate::item::Item;
use crate::start::first_piece;
use std::alloc::{AllocError, Global};

// How a text starts.
#[derive(Drop)]
enum Start<'a> {
    // The text is a rest: nothing, or less than a whole item.
    Rest,
    // An item ends, and this is the text behind it.
    Ends(Item<Vec<u8>>, &'a [u8]),
    // Bytes that are no item, and the text behind them.
    Skipped(&'a [u8]),
}

/// The items of a whole text, with copies of their DATA, and the rest that is no whole item yet. It is plain and slow, for
/// tests and tools; a `Framer` gives the same of a stream in pieces.
pub fn read_items(alloc: Global, text: &[u8]) -> Result<(Vec<Item<Vec<u8>>>, &[u8]), AllocError>
    ensures items { IfOk result (λ given. map owned given.0.items ≡ items text.now) }
    ensures rest { IfOk result (λ given. given.1.now ≡ rest text.now) }
{
    let mut items = Vec::new(alloc);
    let mut left = text;
    loop {
        match start_of(alloc, left)? {
            Start::Rest => return Ok((items, left)),
            Start::Ends(item, behind) => {
                items.push(item)?;
                left = behind;
            }
            Start::Skipped(behind) => left = behind,
        }
    }
}

// How a text starts.
fn start_of(alloc: Global, text: &[u8]) -> Result<Start<'_>, AllocError>
    ensures { IfOk result (StartsSo text.now) }
{
    let Some((first, behind)) = first_byte(text) else {
        return Ok(Start::Rest);
    };
    if first != DLE {
        return Ok(Start::Skipped(behind));
    }
    let Some((second, behind_both)) = first_byte(behind) else {
        return Ok(Start::Rest);
    };
    match second {
        ACK => Ok(Start::Ends(Item::Ack, behind_both)),
        NAK => Ok(Start::Ends(Item::Nak, behind_both)),
        STX => start_of_frame(alloc, behind_both),
        _ => Ok(Start::Skipped(behind)),
    }
}

// How DLE STX and this text behind it start.
fn start_of_frame(alloc: Global, text: &[u8]) -> Result<Start<'_>, AllocError>
    ensures { IfOk result (StartsSo (DLE ∷ STX ∷ text.now)) }
{
    let (body, stopped) = run_of(alloc, text)?;
    let Some((_, behind)) = first_byte(stopped) else {
        return Ok(Start::Rest);
    };
    let Some((control, behind_both)) = first_byte(behind) else {
        return Ok(Start::Rest);
    };
    match control {
        ETX => Ok(Start::Ends(item_with(body), behind_both)),
        STX => Ok(Start::Skipped(stopped)),
        _ => Ok(Start::Skipped(behind_both)),
    }
}

// What the longest run of pieces at the start of a text spells, and the text behind the run.
fn run_of(alloc: Global, text: &[u8]) -> Result<(Vec<u8>, &[u8]), AllocError>
    ensures spelled { IfOk result (λ run. run.0.items ≡ (longest_run text.now).spelled) }
    ensures behind { IfOk result (λ run. run.1.now ≡ (longest_run text.now).behind) }
{
    let mut spelled = Vec::new(alloc);
    let mut left = text;
    while let Some((byte, behind)) = first_piece(left) {
        spelled.push(byte)?;
        left = behind;
    }
    Ok((spelled, left))
}

// The item of a complete frame with this body.
fn item_with(mut body: Vec<u8>) -> Item<Vec<u8>>
    ensures { owned result ≡ item_of body.items }
{
    if is_good_body(&body) {
        body.truncate(body.len() - 2);
        Item::Good(body)
    } else {
        Item::Bad
    }
}

// The first byte of a text, and the text behind it.
fn first_byte(text: &[u8]) -> Option<(u8, &[u8])>
    ensures { MatchOption result (text.now ≡ []) (λ cut. IsSplit text.now cut.0 cut.1.now) }
{
    match text {
        [] => None,
        [byte, behind @ ..] => Some((*byte, behind)),
    }
}
