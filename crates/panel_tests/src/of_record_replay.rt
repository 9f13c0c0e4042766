//! Scripts, and what they give.

mod kept;
mod notices;
mod streams;

use crate::examples::of_record_replay::replay;
use crate::studio::{STUDIO, plant_of};
use ctl_io::MemSink;
use notices::NOTICES;
use plant_config::Plant;
use record_replay::ReplayFault;
use std::alloc::{AllocError, Global};
use std::process::Abort;
use std::test::Fail;

// A plant with a name that has spaces, and with another of no letter.
const PLANT: &[u8] = br#"
title = "Names"
[[level]]
matrix = 0
level = 0
sources = 3
destinations = 2
source_names = ["CAM 1", "  -"]
destination_names = ["MON A ", "take 0 0 0"]
[[level]]
matrix = 1
level = 2
sources = 20
destinations = 20
[[panel]]
device = 0
port = 4000
"#;

// Scripts on the studio, and what they give.
const DAYS: &[(&[u8], &[u8])] = &[
    // Two mixers in a loop are on air, and dark once they are cut from it.
    (
        b"take 0 0 0\tD0\tS20\ntake 0 0 0\tD10\tS21\ntake 0 0 0\tD12\tS20\ntake 0 0 0\tD2\tS20\n\
take 0 0 0\tD3\tS21\nshow 0\ntake 0 0 0\tD0\tBLACK\nshow 0\n",
        b"< 0 10061002040000001405E31003\n< 0 100610020400000A1505D81003\n\
< 0 100610020400000C1405D71003\n< 0 10061002040000021405E11003\n< 0 10061002040000031505DF1003\n\
* 0 1600000000000100C50003005332300200C5000300533231\n< 0 10061002040000000005F71003\n\
* 0 1600000000000100C00003005332300200C0000300533231\n",
    ),
    // A camera on air, on both, a quiet screen, a refresh, and the end.
    (
        b"show 0\ntake 0 0 0\tD0\tCAM3\ntake 0 0 0\tD2\tCAM3\nshow 0\ntake 0 0 0\tD1\tCAM3\n\
show 0\nshow 0\nrefresh 00000\nleave 0\nleave 1\nshow 0\n",
        b"* 0 1000000000000100C00000000200C0000000\n< 0 10061002040000000305F41003\n\
< 0 10061002040000020305F21003\n* 0 0E00000000000100C500040043414D33\n\
< 0 10061002040000010305F31003\n* 0 0E00000000000100ED00040043414D33\n* 0 quiet\n\
* 0 1400000000000100ED00040043414D330200C0000000\nleave 0\nleave 1\n* 0 finished\n",
    ),
    // A bus with a switch, which is parked and then on.
    (
        b"show 0\ntake 0 0 0\tD0\tS20\ntake 0 0 0\tD11\tCAM2\ntake 0 0 0\tD3\tCAM2\nshow 0\n\
> 0 10 02 02 01 00 00 01 05 F7 10 03\nshow 0\n",
        b"* 0 1000000000000100C00000000200C0000000\n< 0 10061002040000001405E31003\n\
< 0 100610020400000B0205EA1003\n< 0 10061002040000030205F21003\n\
* 0 0E00000000000200C000040043414D32\n< 0 10061002040100000105F51003\n\
* 0 0E00000000000200C500040043414D32\n",
    ),
];

// Takes on the plant of names: names with spaces, zeros in front, no source, and a DLE that is sent twice.
const TAKES: &[(&[u8], &[u8])] = &[
    (
        b"take 00000 00 00000\tMON A \tCAM 1\ntake 0 0 0\ttake 0 0 0\t  -",
        b"< 0 10061002040000000005F71003\n< 0 10061002040000010105F51003\n",
    ),
    (
        b"take 0 1 2\tD16\tS16",
        b"< 0 100610020412001010101005C51003\n",
    ),
    (b"take 0 0 0\tMON A \t", b"< 0 10061002040007007F05711003\n"),
];

// Lines that are none on the studio: no display is on the screen, six digits, and other forms; and takes of names or levels
// that it hasn't.
const REFUSED: &[&[u8]] = &[
    b"\nshow 1",
    b"\nshow 65536",
    b"\nshow 000000",
    b"\nshow  0",
    b"\nshow 0\r",
    b"\nrefresh 0 0",
    b"\ntake 0 0 0\tD99\tS3",
    b"\ntake 0 0 0\tD5\tS99",
    b"\ntake 0 0 0\tD5 \tCAM1",
    b"\ntake 0 1 0\tD5\tCAM1",
    b"\ntake 0 16 0\tD5\tCAM1",
    b"\ntake 0 0 256\tD5\tCAM1",
    b"\ntake 0 0 000000\tD5\tCAM1",
    b"\ntake 2 0 0\tD5\tCAM1",
    b"\ntake 0 0 0\tD5",
    b"\ntake 0 0 0\tD5\tCAM1\t",
];

// Whether a replay of which these writes fail ends so, with this output.
fn goes_so(
    alloc: Global,
    plant: &Plant,
    script: &[u8],
    failing: &[u64],
    (ended, output): (Result<(), ReplayFault>, &[u8]),
) -> Result<bool, AllocError> {
    let mut out = MemSink::new(alloc, 3000, failing.to_vec(alloc)?)?;
    Ok(replay(alloc, plant, script, &mut out) == ended && out.written() == output)
}

// Each script of a table gives its output.
fn give(
    rt: &impl Abort,
    alloc: Global,
    plant: &Plant,
    rows: &[(&[u8], &[u8])],
) -> Result<(), AllocError> {
    for (script, output) in rows {
        let is_so = goes_so(alloc, plant, script, &[], (Ok(()), *output))?;
        assert!(rt; is_so);
    }
    Ok(())
}

// Those of a plant file.
fn give_on(
    rt: &impl Abort,
    alloc: Global,
    text: &[u8],
    rows: &[(&[u8], &[u8])],
) -> Result<(), Fail> {
    let plant = plant_of(alloc, text)?;
    Ok(give(rt, alloc, &plant, rows)?)
}

#[test]
fn scripts_are_replayed(rt: HostRuntime) -> Result<(), Fail> {
    give_on(&rt, rt.alloc(), STUDIO, DAYS)?;
    give_on(&rt, rt.alloc(), PLANT, TAKES)?;
    let bench = Plant::bench(rt.alloc())?;
    Ok(give(&rt, rt.alloc(), &bench, NOTICES)?)
}

// The second line of each script is refused.
fn are_refused(
    rt: &impl Abort,
    alloc: Global,
    plant: &Plant,
    scripts: &[&[u8]],
) -> Result<(), AllocError> {
    let refused = Err(ReplayFault::BadLine(2));
    for script in scripts {
        assert!(rt;
            goes_so(alloc, plant, script, &[], (refused, b""))?,
            "of {script:?}"
        );
    }
    Ok(())
}

#[test]
fn lines_without_a_form_are_refused(rt: HostRuntime) -> Result<(), Fail> {
    let studio = plant_of(rt.alloc(), STUDIO)?;
    Ok(are_refused(&rt, rt.alloc(), &studio, REFUSED)?)
}

#[test]
fn a_failed_write_ends_a_replay(rt: HostRuntime) -> Result<(), Fail> {
    let bench = Plant::bench(rt.alloc())?;
    let failed = Err(ReplayFault::OutputFault);
    assert!(rt; goes_so(rt.alloc(), &bench, b"poll 0\n", &[0], (failed, b""))?);
    Ok(())
}
