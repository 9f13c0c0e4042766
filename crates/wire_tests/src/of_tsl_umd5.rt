//! Packets that are refused, and what their faults say.

use std::test::Fail;
use tsl_umd5::{MAX_PACKET, TslFault, read_packet};

// Packets of screen 0, and what is said of each.
const REFUSED: &[(&[u8], &str)] = &[
    (
        b"\x03\x00\x00\x00\x00",
        "a packet or a display message is cut off at byte 5",
    ),
    (
        b"\x09\x00\x00\x00\x00\x00\x01\x00\xC5\x00\x00",
        "a packet or a display message is cut off at byte 6",
    ),
    (
        b"\x05\x00\x00\x00\x00\x00",
        "4 bytes follow the byte count, which is 5",
    ),
    (b"\x04\x00\x01\x00\x00\x00", "version 1 is not 0"),
    (b"\x04\x00\x00\x02\x00\x00", "flags 2 are not 0"),
    (
        b"\x0A\x00\x00\x00\x00\x00\x07\x00\xC5\x80\x00\x00",
        "the display of index 7 has a reserved bit set",
    ),
    (
        b"\x0C\x00\x00\x00\x00\x00\x01\x00\xC5\x00\x02\x00~\x7F",
        "the byte at place 13 is no printable ASCII character",
    ),
];

#[test]
fn refusals_are_told(rt: HostRuntime) -> Result<(), Fail> {
    for (bytes, text) in REFUSED {
        let fault = read_packet(bytes).err().ok_or("the packet is read")?;
        assert!(rt;
            fault.to_string(rt.alloc())?.as_str() == *text,
            "of {bytes:?}"
        );
    }
    Ok(())
}

// The head of a packet of 2,048 bytes, of one display with a long text.
const HEAD: &[u8] = b"\xFE\x07\x00\x00\x07\x00\x01\x00\xC0\x00\xF4\x07";

#[test]
fn a_packet_has_at_most_2048_bytes(rt: HostRuntime) -> Result<(), Fail> {
    let mut packet = HEAD.to_vec(rt.alloc())?;
    packet.resize(MAX_PACKET, b'x')?;
    assert!(rt; read_packet(&packet).is_ok());
    packet.push(b'x')?;
    assert!(rt; read_packet(&packet).err() == Some(TslFault::TooLong(2049)));
    Ok(())
}
