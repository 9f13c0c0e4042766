//! Bytes in hexadecimal, appended and written.

ghost use Rattle.std.specs.Prelude.{◌≡◌, ◌+◌, ◌*◌, ◌/◌, ◌%◌, ◌≤◌, ◌++◌, length, slice_index};
ghost use Rattle.std.specs.Prelude.{vec_len, vec_capacity};
ghost use Rattle.hex.specs.Hex.{encode_upper, upper_digits};

use std::mem::{forget, replace};

// The two digits of each byte, one behind the other: a look-up serves both.
static PAIRS: [u8; 512] = *b"\
    000102030405060708090A0B0C0D0E0F101112131415161718191A1B1C1D1E1F\
    202122232425262728292A2B2C2D2E2F303132333435363738393A3B3C3D3E3F\
    404142434445464748494A4B4C4D4E4F505152535455565758595A5B5C5D5E5F\
    606162636465666768696A6B6C6D6E6F707172737475767778797A7B7C7D7E7F\
    808182838485868788898A8B8C8D8E8F909192939495969798999A9B9C9D9E9F\
    A0A1A2A3A4A5A6A7A8A9AAABACADAEAFB0B1B2B3B4B5B6B7B8B9BABBBCBDBEBF\
    C0C1C2C3C4C5C6C7C8C9CACBCCCDCECFD0D1D2D3D4D5D6D7D8D9DADBDCDDDEDF\
    E0E1E2E3E4E5E6E7E8E9EAEBECEDEEEFF0F1F2F3F4F5F6F7F8F9FAFBFCFDFEFF";

/// Appends bytes in hexadecimal, in upper case. It takes no memory.
pub fn append_hex(bytes: &[u8], out: &mut Vec<u8>)
    requires { vec_len out.old + 2 * length bytes.now ≤ vec_capacity out.old }
    ensures bytes { out.new.items ≡ out.old.items ++ encode_upper bytes.now }
    ensures len { vec_len out.new ≡ vec_len out.old + 2 * length bytes.now }
    ensures room { vec_capacity out.new ≡ vec_capacity out.old }
{
    // Meanwhile the vector stands by itself, so that where its bytes are isn't read again behind each of them.
    let empty = Vec::new(*out.allocator());
    let mut whole = replace(out, empty);
    for byte in bytes {
        let (high, low) = digits_of(*byte);
        whole.push_reserved(high);
        whole.push_reserved(low);
    }
    forget(replace(out, whole));
}

/// Writes bytes in hexadecimal, in upper case, into room of just that length.
pub fn write_hex(bytes: &[u8], room: &mut [u8])
    requires { length room.old ≡ 2 * length bytes.now }
    ensures { room.new ≡ encode_upper bytes.now }
{
    for i in 0..bytes.len() {
        let (high, low) = digits_of(bytes[i]);
        room[2 * i] = high;
        room[2 * i + 1] = low;
    }
}

// The two digits of a byte.
#[inline]
fn digits_of(byte: u8) -> (u8, u8)
    ensures high { result.0 ≡ slice_index upper_digits (byte / 16) }
    ensures low { result.1 ≡ slice_index upper_digits (byte % 16) }
{
    let at = 2 * byte as usize;
    (PAIRS[at], PAIRS[at + 1])
}
