//! The body of a frame: the two bytes behind its DATA, and whether it is good.
ghost use Rattle.std.specs.Prelude.{◌≡◌, ◌%◌, ◌++◌, sum, IsTrue};
ghost use Rattle.std.specs.Bool.{OnTrue, OnFalse};
ghost use Rattle.dle_framing.specs.Frame.{IsData, body, doubled};
ghost use Rattle.dle_framing.specs.Items.{is_good};

use crate::control::{DLE, MAX_BODY, MIN_BODY};

// The length and the check byte behind these DATA.
#[inline(always)]
pub(crate) fn ending(bytes: &[u8]) -> [u8; 2]
    requires { IsData bytes.now }
    ensures { body bytes.now ≡ bytes.now ++ result }
{
    let count = bytes.len() as u8;
    let check = byte_sum(bytes).wrapping_add(count).wrapping_neg();
    [count, check]
}

// Whether a frame with this body is good.
#[inline(always)]
pub(crate) fn is_good_body(body: &[u8]) -> bool
    ensures { result ≡ is_good body.now }
{
    let len = body.len();
    if len < MIN_BODY || len > MAX_BODY {
        return false;
    }
    let data_len = len - 2;
    body[data_len] as usize == data_len && byte_sum(body) == 0
}

// Whether a frame with this body is good, and the body is its own spelling.
#[inline(always)]
pub(crate) fn is_whole(body: &[u8]) -> bool
    ensures good { OnTrue result (IsTrue (is_good body.now)) }
    ensures single { OnTrue result (doubled body.now ≡ body.now) }
    ensures other { OnFalse result
        (IsTrue (is_good body.now) → doubled body.now ≡ body.now → ⊥) }
{
    is_single(body) && is_good_body(body)
}

// Whether no byte is DLE, so that the bytes are their own spelling.
#[inline(always)]
pub(crate) fn is_single(bytes: &[u8]) -> bool
    ensures single { OnTrue result (doubled bytes.now ≡ bytes.now) }
    ensures other { OnFalse result (doubled bytes.now ≡ bytes.now → ⊥) }
{
    for byte in bytes {
        if *byte == DLE {
            return false;
        }
    }
    true
}

// The sum of the bytes modulo 256.
#[inline(always)]
pub(crate) fn byte_sum(bytes: &[u8]) -> u8
    ensures { result ≡ sum bytes.now % 256 }
{
    let mut total: u8 = 0;
    for byte in bytes {
        total = total.wrapping_add(*byte);
    }
    total
}
