//! A trace of which one byte is changed.

use super::audits::WHOLE;
use super::{AUDIT, NOTHING, run_over};
use std::alloc::{AllocError, Global};
use std::test::Fail;

// The places of the numbers of items and turns in the whole trace: no reply hangs on them.
const NUMBERS: [usize; 7] = [9, 56, 58, 73, 75, 111, 113];

// The place of the panel in its last line, which has no notice, as the other one has none then.
const PANEL: usize = 109;

const BYTES: &[u8] = b"0123456789ABCDEFa -=\n\t";

// The whole trace with this byte at that place.
fn changed(alloc: Global, place: usize, byte: u8) -> Result<Vec<u8>, AllocError> {
    let mut trace = WHOLE.to_vec(alloc)?;
    if let Some(old) = trace.get_mut(place) {
        *old = byte;
    }
    Ok(trace)
}

// Whether that is a history of the bench plant too.
fn is_history(place: usize, byte: u8) -> bool {
    let same = WHOLE.get(place).copied() == Some(byte);
    let number = NUMBERS.as_slice().contains(&place) && byte.is_ascii_digit();
    same || number || (place == PANEL && (byte == b'0' || byte == b'1'))
}

#[test]
fn a_trace_with_one_byte_changed_is_not_confirmed(rt: HostRuntime) -> Result<(), Fail> {
    let alloc = rt.alloc();
    for place in 0..WHOLE.len() {
        for byte in BYTES {
            let trace = changed(alloc, place, *byte)?;
            let ran = run_over(&rt, alloc, AUDIT, &[("script", &trace)], NOTHING)?;
            assert_eq!(rt; ran.status == 0, is_history(place, *byte), "{place}");
        }
    }
    Ok(())
}
