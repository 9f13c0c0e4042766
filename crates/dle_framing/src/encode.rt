//! A frame of DATA: how long it is, and its bytes.
ghost use Rattle.std.specs.Prelude.{◌≡◌, ◌+◌, ◌*◌, ◌≤◌, ◌==◌, ◌++◌, length};
ghost use Rattle.std.specs.Prelude.{IfSome, IfNone, count_by, vec_len, vec_capacity};
ghost use Rattle.dle_framing.specs.Numbers.{dle, most_data};
ghost use Rattle.dle_framing.specs.Frame.{IsData, doubled, body, frame};

use crate::body::{ending, is_single};
use crate::control::{DLE, ETX, STX};
use doubled_bytes::push_doubled;
use std::mem::{forget, replace};

/// How many bytes the frame of these DATA has, which is the room that `encode_frame` asks for.
pub fn frame_len(bytes: &[u8]) -> usize
    requires { IsData bytes.now }
    ensures { result ≡ length (frame bytes.now) }
{
    doubled_len(bytes) + doubled_len(&ending(bytes)) + 4
}

/// Appends the one frame of these DATA bytes, as the SW-P-08 General Remote Control Protocol spells it: DLE STX, the
/// DATA, their length and a check byte with each DLE doubled, DLE ETX. It takes no memory.
#[inline(always)]
pub fn encode_frame(bytes: &[u8], out: &mut Vec<u8>)
    requires bytes { IsData bytes.now }
    requires room { vec_len out.old + length (frame bytes.now) ≤ vec_capacity out.old }
    ensures frame { out.new.items ≡ out.old.items ++ frame bytes.now }
    ensures room { vec_capacity out.new ≡ vec_capacity out.old }
{
    match whole_frame(bytes) {
        Some(frame) => append(&frame, out),
        None => encode_by_bytes(bytes, out),
    }
}

// Short way: the frame of 5 bytes of DATA, none of its body DLE. Most frames that are sent are such. None for any other
// DATA.
#[inline(always)]
fn whole_frame(bytes: &[u8]) -> Option<[u8; 11]>
    requires { IsData bytes.now }
    ensures frame { IfSome result (λ text. text ≡ frame bytes.now) }
    ensures none { IfNone result (length bytes.now ≡ 5
        → doubled (body bytes.now) ≡ body bytes.now → ⊥) }
{
    let &[a, b, c, d, e] = bytes else {
        return None;
    };
    let [count, check] = ending(bytes);
    if !is_single(&[a, b, c, d, e, count, check]) {
        return None;
    }
    Some([DLE, STX, a, b, c, d, e, count, check, DLE, ETX])
}

// Appends bytes for which there is room. Meanwhile the vector stands by itself, and not behind a reference: so where its
// bytes are is read once, and not again behind each of them.
#[inline(always)]
fn append(bytes: &[u8], out: &mut Vec<u8>)
    requires { vec_len out.old + length bytes.now ≤ vec_capacity out.old }
    ensures bytes { out.new.items ≡ out.old.items ++ bytes.now }
    ensures room { vec_capacity out.new ≡ vec_capacity out.old }
{
    let empty = Vec::new(*out.allocator());
    let mut whole = replace(out, empty);
    // kit: `whole.extend_from_slice(bytes)` doesn't say that no memory is taken; so each byte is pushed into the room.
    for byte in bytes {
        whole.push_reserved(*byte);
    }
    forget(replace(out, whole));
}

// Appends the frame of any DATA, byte by byte.
#[inline(never)]
fn encode_by_bytes(bytes: &[u8], out: &mut Vec<u8>)
    requires bytes { IsData bytes.now }
    requires room { vec_len out.old + length (frame bytes.now) ≤ vec_capacity out.old }
    ensures frame { out.new.items ≡ out.old.items ++ frame bytes.now }
    ensures room { vec_capacity out.new ≡ vec_capacity out.old }
{
    out.push_reserved(DLE);
    out.push_reserved(STX);
    push_doubled(DLE, bytes, out);
    push_doubled(DLE, &ending(bytes), out);
    out.push_reserved(DLE);
    out.push_reserved(ETX);
}

// How many bytes these are once each DLE is sent twice.
fn doubled_len(bytes: &[u8]) -> usize
    requires { length bytes.now ≤ most_data }
    ensures len { result ≡ length (doubled bytes.now) }
    ensures most { result ≤ 2 * most_data }
{
    bytes.len() + dle_count(bytes)
}

fn dle_count(bytes: &[u8]) -> usize
    ensures { result ≡ count_by (λ byte. byte == dle) bytes.now }
{
    bytes.iter().filter(|byte| **byte == DLE).count()
}
