//! Sources that come by the one tie-line between two routers, which may be kept for masters.

use super::{File, Run, first_wrong};
use std::test::Fail;

// Sources 16 and 17 of matrix 1 stand for sources 3 and 2 of matrix 0.
const STUDIO: &[u8] = b"title = \"Studio\"\n\
    [[level]]\nmatrix = 0\nlevel = 0\nsources = 24\ndestinations = 32\n\
    [[level]]\nmatrix = 1\nlevel = 0\nsources = 24\ndestinations = 16\n\
    [[remote]]\nmatrix = 1\nlevel = 0\nsource = 16\nfrom = 0\nfrom_source = 3\n\
    [[remote]]\nmatrix = 1\nlevel = 0\nsource = 17\nfrom = 0\nfrom_source = 2\n\
    [[pool]]\nfrom = 0\nto = 1\nlevel = 0\nties = 1\n\
    [[panel]]\ndevice = 1\nport = 9001\n";

// The same with a second panel, a master, for which the tie-line is kept.
const RESERVE: &[u8] = b"title = \"Studio\"\n\
    [[level]]\nmatrix = 0\nlevel = 0\nsources = 24\ndestinations = 32\n\
    [[level]]\nmatrix = 1\nlevel = 0\nsources = 24\ndestinations = 16\n\
    [[remote]]\nmatrix = 1\nlevel = 0\nsource = 16\nfrom = 0\nfrom_source = 3\n\
    [[remote]]\nmatrix = 1\nlevel = 0\nsource = 17\nfrom = 0\nfrom_source = 2\n\
    [[pool]]\nfrom = 0\nto = 1\nlevel = 0\nties = 1\nreserve = 1\n\
    [[panel]]\ndevice = 1\nport = 9001\n\
    [[panel]]\ndevice = 2\nport = 9002\nmaster = true\n";

// Destination 0 of matrix 1 gets source 16, but not from panel 0. Then panel 0 may let destination 1 share the tie.
const KEPT: &[u8] = b"> 0 10 02 02 10 10 00 00 10 10 05 D9 10 03\n\
    > 1 10 02 02 10 10 00 00 10 10 05 D9 10 03\n> 0 10 02 02 10 10 00 01 10 10 05 D8 10 03\n";

// Destination 0 of matrix 1 gets source 16. Destination 1 gets no other remote source, as no tie is free, and then source
// 16 by the same tie.
const SHARED: &[u8] =
    b"> 0 10020210100000101005D91003\n> 0 100202101000011105D71003\n> 0 10020210100001101005D81003\n";

// Destination 0 gets source 16. A salvo that gives destination 1 source 17 first, and destination 0 a local source
// behind it, is made as one: the tie that destination 0 gives up brings source 17. Made one by one the first would find
// no tie.
const TAKEN: &[u8] =
    b"> 0 10020210100000101005D91003\n> 0 100278101000011105065B1003\n> 0 100278101000000005066D1003\n\
     > 0 1002790005037F1003\n";

const FILES: [File<'static>; 5] = [
    ("studio", STUDIO),
    ("reserve", RESERVE),
    ("shared", SHARED),
    ("taken", TAKEN),
    ("kept", KEPT),
];

// Runs over these files.
const RUNS: [Run; 3] = [
    (
        &["replay", "studio", "shared"],
        0,
        "< 0 100610020410100000101005D71003\n< 0 1006100203101007017F05611003\n\
     < 0 100610020410100001101005D61003\n",
    ),
    (
        &["replay", "studio", "taken"],
        0,
        "< 0 100610020410100000101005D71003\n< 0 100610027A10100001110506591003\n\
     < 0 100610027A101000000005066B1003\n\
     < 0 100610027B0005037D1003100204101000000005E71003100204101000011105D51003\n",
    ),
    (
        &["replay", "reserve", "kept"],
        0,
        "< 0 1006100203101007007F05621003\n< 1 100610020410100000101005D71003\n\
         < 0 100610020410100001101005D6100310020410100000101005D71003\n",
    ),
];

#[test]
fn a_tie_brings_one_source_at_a_time(rt: HostRuntime) -> Result<(), Fail> {
    assert_eq!(rt; first_wrong(&rt, rt.alloc(), &FILES, &RUNS)?, None);
    Ok(())
}
