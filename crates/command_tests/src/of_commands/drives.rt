//! Drives of the bench plant.

use super::{Run, first_wrong};
use std::test::Fail;

// Runs over no files.
const RUNS: [Run; 5] = [
    (
        &["drive", "0", "1"],
        0,
        "wants 1\nsent 1\nsettled 1\nagree 1\n",
    ),
    // The third message to the frame is lost, and sent again.
    (
        &["drive", "7", "3"],
        0,
        "wants 3\nsent 4\nsettled 3\nagree 3\n",
    ),
    // 19 connects and 7 answers are lost.
    (
        &["drive", "0", "32"],
        0,
        "wants 32\nsent 58\nsettled 32\nagree 32\n",
    ),
    (
        &["drive", "0", "33"],
        0,
        "wants 33\nsent 58\nsettled 32\nagree 32\n",
    ),
    (
        &["drive", "4294967295", "100000"],
        0,
        "wants 100000\nsent 58\nsettled 32\nagree 32\n",
    ),
];

#[test]
fn drives_settle_what_the_frame_has(rt: HostRuntime) -> Result<(), Fail> {
    assert_eq!(rt; first_wrong(&rt, rt.alloc(), &[], &RUNS)?, None);
    Ok(())
}
