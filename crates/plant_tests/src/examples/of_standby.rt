//! One short use of `standby`.

use history_lock::{HistoryLock, Machine};
use plant_config::{PanelNo, Plant};
use plant_core::Request;
use standby::{Standby, Took};
use std::process::Abort;
use std::test::Fail;

// A request of the bench plant comes under its position.
fn is_taken(rt: &impl Abort, standby: &mut Standby, position: u32, took: Took) {
    let left = Request::Leave {
        panel: PanelNo::of(position % 2),
    };
    assert!(rt; standby.state().fits(&left));
    assert!(rt; standby.take(u64::from(position), &left) == took);
}

#[test]
fn a_standby_takes_over(rt: HostRuntime) -> Result<(), Fail> {
    let mut standby = Standby::start(rt.alloc(), &Plant::bench(rt.alloc())?, 3)?;

    // The first request is late, and the line repeats the second one.
    is_taken(&rt, &mut standby, 1, Took::Kept);
    is_taken(&rt, &mut standby, 1, Took::Kept);
    is_taken(&rt, &mut standby, 3, Took::Beyond(3));
    is_taken(&rt, &mut standby, 0, Took::Applied(2));
    is_taken(&rt, &mut standby, 1, Took::Old);
    assert!(rt; standby.applied() == 2 && standby.kept() == 0);

    let (_lock, _seats) = HistoryLock::new(rt.alloc(), standby.takeover(), 2)?;
    Ok(())
}
