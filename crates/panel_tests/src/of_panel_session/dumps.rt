//! Dumps, in pages.

use crate::examples::of_record_replay::replay;
use crate::studio::plant_of;
use ctl_io::MemSink;
use plant_config::Plant;
use std::alloc::Global;
use std::test::Fail;

const LARGE: &[u8] = br#"
title = "Large"
[[level]]
matrix = 0
level = 2
sources = 24
destinations = 130
[[panel]]
device = 1
port = 9001
"#;

// Asks for a dump of level 2, which has 130 destinations, and sends a NAK.
const SCRIPT: &[u8] = b"> 0 1002150202E71003\n> 0 1015\n";

// The last page, of two destinations, and once more.
const END: &[u8] = b"1002170202008003FF03FF09581003\n< 0 1002170202008003FF03FF09581003\n";

// How many bytes are told, and how they end.
fn told(alloc: Global, plant: &Plant) -> Result<(usize, bool), Fail> {
    let mut out = MemSink::new(alloc, 1000, Vec::new(alloc))?;
    if replay(alloc, plant, SCRIPT, &mut out).is_err() {
        return Ok((0, false));
    }
    Ok((out.written().len(), out.written().ends_with(END)))
}

// They come in pages of 64, 64 and 2, of which a NAK repeats the last one. Before them comes the ACK. Each page has 5 bytes and
// 2 for each destination, their length and check byte, and 4 of the frame: 295 bytes in all, in hexadecimal.
#[test]
fn a_dump_comes_in_pages_of_64(rt: HostRuntime) -> Result<(), Fail> {
    let large = plant_of(rt.alloc(), LARGE)?;
    assert!(rt; told(rt.alloc(), &large)? == (5 + 2 * 295 + 5 + 2 * 15, true));
    Ok(())
}
