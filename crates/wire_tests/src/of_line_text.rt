//! Numbers at their limits, and bytes in room of just their length.

use line_text::{MAX_DIGITS, append_decimal, read_decimal, write_hex};
use std::test::Fail;

#[test]
fn the_limits_of_numbers(rt: HostRuntime) -> Result<(), Fail> {
    assert!(rt; read_decimal(b"9999999999999999999") == Some(9_999_999_999_999_999_999));
    let mut out = Vec::with_capacity(rt.alloc(), MAX_DIGITS)?;
    append_decimal(u64::MAX, &mut out);
    assert!(rt; out.as_slice() == b"18446744073709551615".as_slice());

    let mut room = [0; 6];
    write_hex(b"\x09\xA0\xFF", &mut room);
    assert!(rt; room == *b"09A0FF");
    Ok(())
}
