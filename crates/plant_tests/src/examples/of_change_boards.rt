//! `change_boards` in use.

use change_boards::{Notices, Screens, Shown, Sort, Value};
use plant_config::{DestId, DisplayId, PanelNo, Plant};
use std::alloc::{AllocError, Global};
use std::process::Abort;
use std::test::Fail;

#[test]
fn a_panel_hears_each_change_once(rt: HostRuntime) -> Result<(), Fail> {
    let mut notices = Notices::new(rt.alloc(), &Plant::bench(rt.alloc())?)?;
    let panel = PanelNo::of(1);
    let (fourth, fifth) = (DestId::of(4), DestId::of(5));

    notices.mark(panel, fifth, Sort::Source);
    notices.mark(panel, fourth, Sort::Protect);
    notices.mark(panel, fifth, Sort::Source);

    assert!(rt; notices.remove_lowest(panel) == Some((fourth, Sort::Protect)));
    assert!(rt; notices.remove_lowest(panel) == Some((fifth, Sort::Source)));
    assert!(rt; notices.remove_lowest(panel) == None);
    Ok(())
}

// Two displays of screen 3, over destinations 0 and 1.
const MONITORS: &[u8] = br#"
title = "Monitors"
[[level]]
matrix = 0
level = 0
sources = 1
destinations = 2
[[display]]
screen = 3
index = 8
matrix = 0
destination = 0
[[display]]
screen = 3
index = 2
matrix = 0
destination = 1
[[panel]]
device = 1
port = 9001
"#;

// A screen has its displays by their index.
fn are_listed(rt: &impl Abort, alloc: Global, plant: &Plant) -> Result<(), AllocError> {
    let screens = Screens::new(alloc, plant)?;
    let (first, second) = (DisplayId::of(0), DisplayId::of(1));
    assert!(rt; screens.displays(3) == [second, first].as_slice());
    Ok(())
}

// A display is shown what it does not show.
fn is_shown(rt: &impl Abort, alloc: Global, plant: &Plant) -> Result<(), AllocError> {
    assert!(rt; plant.displays().len() == 2);
    let mut shown = Shown::new(alloc, plant)?;
    let first = DisplayId::of(0);
    let parked = &Value {
        source: None,
        air: false,
        preview: false,
    };
    assert!(rt; shown.differs(first, *parked));
    shown.show(first, *parked);
    assert!(rt; !shown.differs(first, *parked));
    shown.forget(&[first]);
    assert!(rt; shown.differs(first, *parked));
    Ok(())
}

#[test]
fn a_display_is_shown_what_it_does_not_show(rt: HostRuntime) -> Result<(), Fail> {
    let plant = Plant::from_toml(rt.alloc(), MONITORS)?;
    are_listed(&rt, rt.alloc(), &plant)?;
    Ok(is_shown(&rt, rt.alloc(), &plant)?)
}
