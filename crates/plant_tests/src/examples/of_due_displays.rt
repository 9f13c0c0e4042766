//! `due_displays` in use.

ghost use Rattle.std.specs.Prelude.{IfOk};
ghost use Rattle.plant_config.specs.IsPlant.{IsPlant};
ghost use Rattle.due_displays.specs.Due.{AreDueOf};

use change_boards::Screens;
use due_displays::DueDisplays;
use plant_config::{DestId, DisplayId, Plant};
use std::alloc::{AllocError, Global};
use std::process::Abort;
use std::test::Fail;

// On screen 3 display 1 stands before display 0, and display 2 is on screen 4. Displays 0 and 2 watch destination 0.
const MONITORS: &[u8] = br#"
title = "Monitors"
[[level]]
matrix = 0
level = 0
sources = 1
destinations = 2
[[display]]
screen = 3
index = 8
matrix = 0
destination = 0
[[display]]
screen = 3
index = 2
matrix = 0
destination = 1
[[display]]
screen = 4
index = 0
matrix = 0
destination = 0
[[panel]]
device = 1
port = 9001
"#;

// At first all are due.
fn all(alloc: Global, plant: &Plant) -> Result<DueDisplays, AllocError>
    requires plant { IsPlant plant.now }
    ensures { IfOk result (AreDueOf plant.now) }
{
    let screens = Screens::new(alloc, plant)?;
    DueDisplays::new(alloc, plant, &screens)
}

// They are told, and those that watch destination 0 are due again.
fn are_due(rt: &impl Abort, plant: &Plant, due: &mut DueDisplays)
    requires plant { IsPlant plant.now }
    requires due { AreDueOf plant.now due.old }
{
    assert!(rt; plant.displays().len() == 3);
    assert!(rt; due.first(3) == Some(0));

    due.remove(plant, DisplayId::of(1));
    assert!(rt; due.first(3) == Some(1));
    due.remove(plant, DisplayId::of(0));
    due.remove(plant, DisplayId::of(2));
    assert!(rt; due.is_empty());

    due.add_watchers(plant, DestId::of(0));
    assert!(rt; due.first(3) == Some(1));
    assert!(rt; due.first(4) == Some(0));
    assert!(rt; due.first(5) == None);
}

// So it is from the start on.
fn are_due_first(rt: &impl Abort, alloc: Global, plant: &Plant) -> Result<(), AllocError>
    requires { IsPlant plant.now }
{
    are_due(rt, plant, &mut all(alloc, plant)?);
    Ok(())
}

#[test]
fn a_destination_leads_to_the_displays_that_watch_it(rt: HostRuntime) -> Result<(), Fail> {
    let plant = Plant::from_toml(rt.alloc(), MONITORS)?;
    Ok(are_due_first(&rt, rt.alloc(), &plant)?)
}
