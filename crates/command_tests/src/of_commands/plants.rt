//! Plant files: what is said of them, and what ends a run at them.

use super::{File, Run, first_wrong};
use std::test::Fail;

const SMALL: &[u8] = b"title = \"Small\"\n\
    [[level]]\nmatrix = 2\nlevel = 0\nsources = 4\ndestinations = 3\n\
    [[level]]\nmatrix = 0\nlevel = 1\nsources = 2\ndestinations = 1\n\
    [[device]]\nname = \"ME\"\nmatrix = 2\nsource = 3\n\
    [[bus]]\ndevice = \"ME\"\nmatrix = 2\ndestination = 0\n\
    [[bus]]\ndevice = \"ME\"\nmatrix = 2\ndestination = 1\n\
    switch_matrix = 0\nswitch_level = 1\nswitch_destination = 0\n\
    [[display]]\nscreen = 0\nindex = 0\nmatrix = 2\ndestination = 2\n\
    [[panel]]\ndevice = 1\nport = 9001\n";

// A plant in which source 1 of matrix 1 stands for source 0 of matrix 0.
const REMOTE: &[u8] = b"title = \"Remote\"\n\
    [[level]]\nmatrix = 0\nlevel = 0\nsources = 2\ndestinations = 2\n\
    [[level]]\nmatrix = 1\nlevel = 0\nsources = 2\ndestinations = 2\n\
    [[remote]]\nmatrix = 1\nlevel = 0\nsource = 1\nfrom = 0\nfrom_source = 0\n\
    [[pool]]\nfrom = 0\nto = 1\nlevel = 0\nties = 3\n\
    [[pool]]\nfrom = 1\nto = 0\nlevel = 0\nties = 4\n\
    [[panel]]\ndevice = 1\nport = 9001\n";

const FAULTY: &[u8] = b"title = \"Faulty\"\n\
    [[level]]\nmatrix = 0\nlevel = 0\nsources = 70000\ndestinations = 2\n\
    [[panel]]\ndevice = 1\nport = 9001\n";

// A wide level.
const WIDE: &[u8] = b"title = \"W\"\n\
    [[level]]\nmatrix = 0\nlevel = 0\nsources = 2000\ndestinations = 3000\n\
    [[panel]]\ndevice = 1\nport = 9001\n\
    [[panel]]\ndevice = 2\nport = 9002\nmaster = true\n";

// Extended commands: connect 2000 and 5 to 1500. Destination 5 is asked for by an interrogate that isn't extended, and 3000,
// which the plant lacks, by one that is. Two more have a byte less, and matrix 16.
const NUMBERS: &[u8] = b"> 0 10 02 82 00 00 07 D0 05 DC 07 BF 10 03\n\
    > 0 10 02 82 00 00 00 05 05 DC 07 91 10 03\n> 0 10 02 01 00 00 05 04 F6 10 03\n\
    > 0 10 02 81 00 00 0B B8 05 B7 10 03\n\
    > 0 1002820000000505066E1003\n> 0 100281101000000505651003\n";

// Interrogate 2 of matrix 2.
const SCRIPT: &[u8] = b"> 0 10020120000204D91003\n";

const FILES: [File<'static>; 9] = [
    ("small", SMALL),
    ("remote", REMOTE),
    ("faulty", FAULTY),
    ("wide", WIDE),
    ("numbers", NUMBERS),
    ("empty", b""),
    ("script", SCRIPT),
    ("both", SMALL),
    ("both", b"poll 0\n"),
];

// Runs over these files.
const RUNS: [Run; 15] = [
    (
        &["check", "bench"],
        0,
        "plant Bench\nlevels 1\nsources 32\ndestinations 32\npools 0\nties 0\n\
         devices 0\nbuses 0\ndisplays 0\npanels 2\n",
    ),
    (
        &["check", "small"],
        0,
        "plant Small\nlevels 2\nsources 6\ndestinations 4\npools 0\nties 0\n\
         devices 1\nbuses 2\ndisplays 1\npanels 1\n",
    ),
    (
        &["check", "remote"],
        0,
        "plant Remote\nlevels 2\nsources 4\ndestinations 4\npools 2\nties 7\n\
         devices 0\nbuses 0\ndisplays 0\npanels 1\n",
    ),
    (
        &["check", "faulty"],
        4,
        "plant refused: OutOfRange at level 0 sources: 70000 not in 1 to 65535\n",
    ),
    (
        &["check", "empty"],
        4,
        "plant refused: Missing at top 0 title\n",
    ),
    (&["check", "script"], 4, "plant refused: NotToml\n"),
    (&["check", "Bench"], 3, "file Bench missing\n"),
    (
        &["replay", "small", "script"],
        0,
        "< 0 10061002032007027F05501003\n",
    ),
    // A name is opened once as the plant's and then as the script's.
    (&["replay", "both", "both"], 0, "< 0 -\n"),
    (
        &["replay", "remote", "script"],
        0,
        "< 0 10061002032007027F05501003\n",
    ),
    (
        &["replay", "wide", "numbers"],
        0,
        "< 0 1006100284000007D005DC07BD1003\n< 0 10061002840000000505DC078F1003\n\
         < 0 10061002830000000505DC07901003\n< 0 100610028300000BB8FFFF07B51003\n\
         < 0 1006\n< 0 1006\n",
    ),
    // The plant's fault is told before the script is looked for.
    (
        &["replay", "faulty", "nowhere"],
        4,
        "plant refused: OutOfRange at level 0 sources: 70000 not in 1 to 65535\n",
    ),
    (&["replay", "small", "nowhere"], 3, "file nowhere missing\n"),
    (&["replay", "nowhere", "other"], 3, "file nowhere missing\n"),
    (&["replay", "small", "faulty"], 5, "script line 1 refused\n"),
];

#[test]
fn plant_files_are_checked_and_replayed_on(rt: HostRuntime) -> Result<(), Fail> {
    let alloc = rt.alloc();
    assert_eq!(rt; first_wrong(&rt, alloc, &FILES, &RUNS)?, None);
    Ok(())
}
