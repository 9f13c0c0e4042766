//! Audits of whole traces.

use plant_config::Plant;
use std::alloc::{AllocError, Global};
use std::process::Abort;
use std::test::Fail;
use trace_audit::{Verdict, audit};

// The four lines of a history of the bench plant, whose second panel hears of the connect of the first.
const TOLD: &str = "0 told 0 0 0200000503 = 1002040000050305EF1003\n";

const POLLED: &str = "1 poll 0 1 0 = -\n";

const HEARD: &str = "2 poll 1 0 0 = 1002040000050305EF1003\n";

const QUIET: &str = "3 poll 1 0 0 = -\n";

// The first line with another source in its reply.
const OTHER: &str = "0 told 0 0 0200000503 = 1002040000050405EE1003\n";

// What an audit finds: what a verdict says.
enum Found {
    Confirmed(u64),
    BadLine(u64),
    Gap(u64),
    Repeat(u64),
    // The position, what is kept, and what is wanted.
    Differs(u64, &'static [u8], &'static [u8]),
}

const DIFFERENCE: Found = Found::Differs(0, b"1002040000050405EE1003", b"1002040000050305EF1003");

// Lines, and what is found in them.
type Row = (&'static [&'static str], Found);

const ROWS: &[Row] = &[
    // In any order, whole or from the start to some position. The last line may lack its LF.
    (&[TOLD, POLLED, HEARD, QUIET], Found::Confirmed(4)),
    (&[HEARD, QUIET, TOLD, POLLED], Found::Confirmed(4)),
    (
        &[POLLED, "0 told 0 0 0200000503 = 1002040000050305EF1003"],
        Found::Confirmed(2),
    ),
    (&[], Found::Confirmed(0)),
    // The first finding: a gap below a repeat, a repeat below a difference and a difference below a gap.
    (&[TOLD, POLLED, QUIET], Found::Gap(2)),
    (&["4611686018427387904 poll 0 1 0 = -"], Found::Gap(0)),
    (&[HEARD, TOLD, HEARD], Found::Gap(1)),
    (&[TOLD, HEARD, POLLED, QUIET, HEARD], Found::Repeat(2)),
    (
        &["2 poll 1 0 0 = 10\n", TOLD, POLLED, POLLED],
        Found::Repeat(1),
    ),
    (&[TOLD, OTHER], Found::Repeat(0)),
    (&[OTHER, POLLED, HEARD, QUIET], DIFFERENCE),
    (&[HEARD, OTHER], DIFFERENCE),
    // The state of the plant is that of all requests before.
    (
        &[TOLD, "1 poll 1 0 0 = -"],
        Found::Differs(1, b"-", b"1002040000050305EF1003"),
    ),
    // A line that tells nothing comes before all. The bench plant has two panels.
    (&[TOLD, POLLED, HEARD, QUIET, "x"], Found::BadLine(5)),
    (&[OTHER, OTHER, "\n", "x\n"], Found::BadLine(3)),
    (&[TOLD, "1 leave 2 = -\n"], Found::BadLine(2)),
];

// Whether a verdict says what is found.
fn says(verdict: &Verdict, found: &Found) -> bool {
    match (verdict, found) {
        (Verdict::Confirmed(said), Found::Confirmed(number))
        | (Verdict::BadLine(said), Found::BadLine(number))
        | (Verdict::Gap(said), Found::Gap(number))
        | (Verdict::Repeat(said), Found::Repeat(number)) => said == number,
        (
            Verdict::Differs {
                position,
                kept,
                wanted,
            },
            Found::Differs(at, before, after),
        ) => position == at && kept.as_slice() == *before && wanted.as_slice() == *after,
        _ => false,
    }
}

// Whether lines are found so.
fn is_found(
    alloc: Global,
    plant: &Plant,
    lines: &[&str],
    found: &Found,
) -> Result<bool, AllocError> {
    let mut trace = String::new(alloc);
    for line in lines {
        trace.push_str(line)?;
    }
    Ok(says(&audit(alloc, plant, trace.as_bytes())?, found))
}

// The lines of each row are found as it says.
fn are_all_found(rt: &impl Abort, alloc: Global, plant: &Plant) -> Result<(), AllocError> {
    for (lines, found) in ROWS {
        let is_so = is_found(alloc, plant, lines, found)?;
        assert!(rt; is_so, "of {lines:?}");
    }
    Ok(())
}

#[test]
fn the_first_finding_is_told(rt: HostRuntime) -> Result<(), Fail> {
    let plant = Plant::bench(rt.alloc())?;
    Ok(are_all_found(&rt, rt.alloc(), &plant)?)
}
