//! Half of a start or of a pair at the end of bytes that were written.
ghost use Rattle.std.specs.Prelude.{◌≡◌, ◌==◌, ◌&&◌, not};
ghost use Rattle.tsl_stream.specs.Numbers.{tsl_dle};
ghost use Rattle.tsl_stream.specs.WritingInside.{half_after};

use crate::control::DLE;

// Whether bytes end with half of a pair, where half of one was left before them or not.
pub(crate) fn ends_half(half: bool, bytes: &[u8]) -> bool
    ensures { result ≡ half_after half bytes.now }
{
    let mut ends = half;
    for byte in bytes {
        ends = is_half(*byte, ends);
    }
    ends
}

// Whether a byte is half of a pair, where half of one was left before it or not.
fn is_half(byte: u8, before: bool) -> bool
    ensures { result ≡ (byte == tsl_dle && not before) }
{
    byte == DLE && !before
}
