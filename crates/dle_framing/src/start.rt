//! How a text starts: with DLE STX, or with a piece of a frame's body, which is a byte other than DLE or a pair of DLE.
ghost use Rattle.std.specs.Prelude.{◌≡◌, ℕ, ◌<◌, List, [], ◌∷◌, length, MatchOption, IfSome};
ghost use Rattle.doubled_bytes.specs.Doubled.{with_piece};
ghost use Rattle.dle_framing.specs.Items.{longest_run};

use crate::control::{DLE, STX};

// The text behind the DLE STX that it starts with.
pub(crate) fn behind_start(text: &[u8]) -> Option<&[u8]>
    ensures { MatchOption result ((inner : List ℕ) → text.now ≡ DLE ∷ STX ∷ inner → ⊥)
        (λ inner. text.now ≡ DLE ∷ STX ∷ inner.now) }
{
    match text {
        [DLE, STX, inner @ ..] => Some(inner),
        _ => None,
    }
}

// The first piece of a text, a byte other than DLE or a pair of DLE, and the text behind it.
pub(crate) fn first_piece(text: &[u8]) -> Option<(u8, &[u8])>
    ensures run { MatchOption result
        (longest_run text.now ≡ record { spelled = []; behind = text.now })
        (λ piece. longest_run text.now ≡ with_piece piece.0 (longest_run piece.1.now)) }
    ensures shorter { IfSome result (λ piece. length piece.1.now < length text.now) }
{
    match text {
        [DLE, DLE, behind @ ..] => Some((DLE, behind)),
        [] | [DLE, ..] => None,
        [byte, behind @ ..] => Some((*byte, behind)),
    }
}
