//! A usual day: four routers with tie-lines between them, three mixers, and three screens.

use super::{NOTHING, run_over};
use std::alloc::{AllocError, Global};
use std::test::Fail;

// Four matrices of 200 sources and 150 destinations, and a control level of 12 switches. A pool of four tie-lines leads
// from each matrix to each other one, three mixers have six buses, and 24 displays are on three screens.
const PLANT: &[u8] = br#"
title = "Day"
level = [
    { matrix = 0, level = 0, sources = 200, destinations = 150 },
    { matrix = 1, level = 0, sources = 200, destinations = 150 },
    { matrix = 2, level = 0, sources = 200, destinations = 150 },
    { matrix = 3, level = 0, sources = 200, destinations = 150 },
    { matrix = 0, level = 1, sources = 2, destinations = 12 },
]
pool = [
    { from = 0, to = 1, level = 0, ties = 4 },
    { from = 0, to = 2, level = 0, ties = 4 },
    { from = 0, to = 3, level = 0, ties = 4 },
    { from = 1, to = 0, level = 0, ties = 4 },
    { from = 1, to = 2, level = 0, ties = 4 },
    { from = 1, to = 3, level = 0, ties = 4 },
    { from = 2, to = 0, level = 0, ties = 4 },
    { from = 2, to = 1, level = 0, ties = 4 },
    { from = 2, to = 3, level = 0, ties = 4 },
    { from = 3, to = 0, level = 0, ties = 4 },
    { from = 3, to = 1, level = 0, ties = 4 },
    { from = 3, to = 2, level = 0, ties = 4 },
]
remote = [
    { matrix = 1, level = 0, source = 190, from = 0, from_source = 5 },
    { matrix = 2, level = 0, source = 191, from = 0, from_source = 196 },
    { matrix = 3, level = 0, source = 199, from = 1, from_source = 3 },
]
device = [
    { name = "A", matrix = 0, source = 196 },
    { name = "B", matrix = 0, source = 197 },
    { name = "C", matrix = 1, source = 196 },
]
bus = [
    { device = "A", matrix = 0, destination = 10 },
    { device = "A", matrix = 0, destination = 11, switch_matrix = 0, switch_level = 1, switch_destination = 0 },
    { device = "B", matrix = 0, destination = 12 },
    { device = "B", matrix = 0, destination = 13, switch_matrix = 0, switch_level = 1, switch_destination = 1 },
    { device = "C", matrix = 1, destination = 10 },
    { device = "C", matrix = 1, destination = 11, switch_matrix = 0, switch_level = 1, switch_destination = 2 },
]
air = [{ matrix = 0, destination = 0 }]
preview = [{ matrix = 0, destination = 1 }]
display = [
    { screen = 0, index = 0, matrix = 0, destination = 20 },
    { screen = 0, index = 1, matrix = 0, destination = 21 },
    { screen = 0, index = 2, matrix = 0, destination = 22 },
    { screen = 0, index = 3, matrix = 0, destination = 23 },
    { screen = 0, index = 4, matrix = 0, destination = 24 },
    { screen = 0, index = 5, matrix = 0, destination = 25 },
    { screen = 0, index = 6, matrix = 0, destination = 26 },
    { screen = 0, index = 7, matrix = 0, destination = 27 },
    { screen = 1, index = 0, matrix = 2, destination = 40 },
    { screen = 1, index = 1, matrix = 2, destination = 41 },
    { screen = 1, index = 2, matrix = 2, destination = 42 },
    { screen = 1, index = 3, matrix = 2, destination = 43 },
    { screen = 1, index = 4, matrix = 2, destination = 44 },
    { screen = 1, index = 5, matrix = 2, destination = 45 },
    { screen = 1, index = 6, matrix = 2, destination = 46 },
    { screen = 1, index = 7, matrix = 2, destination = 47 },
    { screen = 2, index = 0, matrix = 3, destination = 60 },
    { screen = 2, index = 1, matrix = 3, destination = 61 },
    { screen = 2, index = 2, matrix = 3, destination = 62 },
    { screen = 2, index = 3, matrix = 3, destination = 63 },
    { screen = 2, index = 4, matrix = 3, destination = 64 },
    { screen = 2, index = 5, matrix = 3, destination = 65 },
    { screen = 2, index = 6, matrix = 3, destination = 66 },
    { screen = 2, index = 7, matrix = 3, destination = 67 },
]
panel = [
    { device = 1, port = 9001 },
    { device = 2, port = 9002 },
    { device = 3, port = 9003 },
    { device = 4, port = 9004 },
    { device = 5, port = 9005 },
    { device = 6, port = 9006 },
    { device = 7, port = 9007 },
    { device = 8, port = 9008 },
]
"#;

// Twenty lines of work of eight panels: connects and takes on air and off it, a salvo, polls of panels and of screens.
const LINES: &[u8] = b"> 0 1002020001004405B41003\n\
    > 1 10020200000A0505EA1003\n\
    take 2 0 0\tD20\tS5\n\
    show 0\n\
    take 3 0 1\tD0\tS1\n\
    > 2 1002021010011E3E058C1003\n\
    poll 4\n\
    > 4 100278200028070306301003\n\
    > 4 1002782001293F0306F61003\n\
    > 4 100279000303811003\n\
    show 1\n\
    poll 5\n\
    > 5 10020230013C4705451003\n\
    take 6 3 0\tD61\tS12\n\
    show 2\n\
    poll 6\n\
    > 7 10020200000B0605E81003\n\
    > 0 1002020000000105F81003\n\
    show 0\n\
    refresh 1\n";

// So often these lines.
fn repeated(alloc: Global, times: usize) -> Result<Vec<u8>, AllocError> {
    let mut script = Vec::new(alloc);
    for _ in 0..times {
        script.extend_from_slice(LINES)?;
    }
    Ok(script)
}

#[test]
fn a_usual_day_is_worked_to_its_end(rt: HostRuntime) -> Result<(), Fail> {
    let alloc = rt.alloc();
    let script = repeated(alloc, 10)?;
    let files = [("day", PLANT), ("script", script.as_slice())];
    let ran = run_over(&rt, alloc, &["replay", "day", "script"], &files, NOTHING)?;
    assert_eq!(rt; ran.status, 0);
    let lines = ran.out.written().iter().filter(|byte| **byte == b'\n');
    assert_eq!(rt; lines.count(), 200);
    Ok(())
}
