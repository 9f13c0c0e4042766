//! A use of `doubled_bytes`: a byte that stands before controls is sent twice.

use doubled_bytes::push_doubled;
use std::test::Fail;

#[test]
fn a_dle_is_sent_twice(rt: HostRuntime) -> Result<(), Fail> {
    let mut sent = Vec::with_capacity(rt.alloc(), 4)?;
    push_doubled(0x10, b"\x01\x10\x02", &mut sent);
    assert!(rt; sent.as_slice() == b"\x01\x10\x10\x02".as_slice());
    Ok(())
}
