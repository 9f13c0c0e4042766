//! The pieces in which a link gives the bytes of a panel.

ghost use Rattle.std.specs.Prelude.{◌≡◌, ◌<◌, IfOk};
ghost use Rattle.drill.specs.Pieces.{in_pieces, piece_at, piece_count};

use ctl_io::Bytes;
use ctl_net::LinkEvent;
use std::alloc::{AllocError, Global};

/// The events of a link that gives these bytes in pieces of 512, the last one shorter where they don't come out even.
pub fn in_pieces(alloc: Global, bytes: &[u8]) -> Result<Vec<LinkEvent>, AllocError>
    ensures { IfOk result (λ events. events.items ≡ in_pieces bytes.now) }
{
    let mut events = Vec::new(alloc);
    for at in 0..bytes.len().div_ceil(PIECE) {
        let piece = piece(alloc, bytes, at)?;
        events.push(LinkEvent::Piece(Bytes::of(piece)))?;
    }
    Ok(events)
}

// How many bytes a piece has; the last one may have fewer.
const PIECE: usize = 512;

// The piece of this number.
fn piece(alloc: Global, bytes: &[u8], at: usize) -> Result<Vec<u8>, AllocError>
    requires { at < piece_count bytes.now }
    ensures { IfOk result (λ piece. piece.items ≡ piece_at bytes.now at) }
{
    let behind = &bytes[at * PIECE..];
    behind[..behind.len().min(PIECE)].to_vec(alloc)
}
