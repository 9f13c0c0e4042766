//! What no clause of `standby` says: that it works at the edges of its window, and over many orders.

ghost use Rattle.std.specs.Prelude.{◌≤◌};

use crate::of_plant_core::Rig;
use history_lock::Machine;
use plant_config::{DestId, PanelNo, Plant};
use plant_core::{PlantState, Request};
use standby::{Standby, Took};
use std::alloc::{AllocError, Global};
use std::process::Abort;
use std::test::Fail;
use swp08_messages::{Message, Point};

// The request at a position of a history of the bench plant: a connect of one of 8 destinations.
fn request_at(position: u32) -> Request {
    Request::Told {
        panel: PanelNo::of(position % 2),
        item: u64::from(position),
        message: Message::Connect {
            at: Point {
                matrix: 0,
                level: 0,
                dest: (position % 8) as u16,
            },
            source: Some((position / 3 % 8) as u16),
        },
    }
}

// It comes.
fn take(rt: &impl Abort, standby: &mut Standby, position: u32) -> Took {
    let request = request_at(position);
    assert!(rt; standby.state().fits(&request));
    standby.take(u64::from(position), &request)
}

// Which positions come to a standby of one place, with the answers,
const OF_ONE: [(u32, Took); 4] = [
    (1, Took::Beyond(1)),
    (0, Took::Applied(1)),
    (0, Took::Old),
    (1, Took::Applied(2)),
];

// of two,
const OF_TWO: [(u32, Took); 7] = [
    (2, Took::Beyond(2)),
    (1, Took::Kept),
    (1, Took::Kept),
    (0, Took::Applied(2)),
    (3, Took::Kept),
    (4, Took::Beyond(4)),
    (2, Took::Applied(4)),
];

// and of the most.
const OF_MOST: [(u32, Took); 5] = [
    (65_536, Took::Beyond(65_536)),
    (65_535, Took::Kept),
    (0, Took::Applied(1)),
    (65_536, Took::Kept),
    (65_537, Took::Beyond(65_537)),
];

// A standby answers these so.
fn are_taken(rt: &impl Abort, standby: &mut Standby, row: &[(u32, Took)]) {
    for (position, took) in row {
        assert!(rt; take(rt, standby, *position) == *took);
    }
}

// Another request at a position that is kept, and the same at one that was applied.
fn is_another(rt: &impl Abort, standby: &mut Standby) {
    let other = request_at(2);
    assert!(rt; take(rt, standby, 1) == Took::Kept);
    assert!(rt; standby.state().fits(&other));
    assert!(rt; standby.take(1, &other) == Took::Differs);
    assert!(rt; standby.kept() == 1 && standby.applied() == 0);
}

// The next of a row of made numbers, below 2^31.
fn next_number(number: u64) -> u64 {
    (number % 2_147_483_648 * 1_103_515_245 + 12_345) % 2_147_483_648
}

// 200 requests come: those about the one that is missing, in an order made from a number. Some come again, and some never.
fn take_many(rt: &impl Abort, standby: &mut Standby, first: u64) {
    let mut number = first;
    for _turn in 0..200 {
        number = next_number(number);
        let from = standby.applied().min(1_000) as u32;
        take(rt, standby, from + (number / 65_536 % 12) as u32);
    }
}

/// What the 8 destinations carry.
type Sources = [Option<u32>; 8];

// What they carry in a state.
fn carried(state: &PlantState) -> Sources {
    let mut sources = [None; 8];
    for dest in 0..8_u32 {
        if let Some(source) = state.source_at(DestId::of(dest)) {
            sources[dest as usize] = Some(source.get());
        }
    }
    sources
}

// How many requests a standby applied, and what its destinations carry.
fn reached(standby: &Standby) -> (u32, Sources) {
    (
        standby.applied().min(1_000) as u32,
        carried(standby.state()),
    )
}

/// What comes to a new standby.
#[derive(Clone, Copy)]
enum Trial {
    /// Requests of these positions, which are answered so.
    Row(&'static [(u32, Took)]),
    /// Another request at a position that is kept.
    Another,
    /// 200 requests in an order made from a number.
    Order(u64),
}

// That comes to a standby.
fn come(rt: &impl Abort, standby: &mut Standby, trial: Trial) {
    match trial {
        Trial::Row(row) => are_taken(rt, standby, row),
        Trial::Another => is_another(rt, standby),
        Trial::Order(number) => take_many(rt, standby, number),
    }
}

// What a new one with so many places reaches by it.
fn tried(
    rt: &impl Abort,
    alloc: Global,
    plant: &Plant,
    window: u32,
    trial: Trial,
) -> Result<(u32, Sources), AllocError>
    requires some { 1 ≤ window }
    requires most { window ≤ 65536 }
{
    let mut standby = Standby::start(alloc, plant, window)?;
    come(rt, &mut standby, trial);
    Ok(reached(&standby))
}

#[test]
fn windows_end_where_they_end(rt: HostRuntime) -> Result<(), Fail> {
    let plant = Plant::bench(rt.alloc())?;
    tried(&rt, rt.alloc(), &plant, 1, Trial::Row(&OF_ONE))?;
    tried(&rt, rt.alloc(), &plant, 2, Trial::Row(&OF_TWO))?;
    tried(&rt, rt.alloc(), &plant, 65_536, Trial::Row(&OF_MOST))?;
    Ok(())
}

#[test]
fn another_request_differs(rt: HostRuntime) -> Result<(), Fail> {
    let plant = Plant::bench(rt.alloc())?;
    tried(&rt, rt.alloc(), &plant, 4, Trial::Another)?;
    Ok(())
}

// What a plant carries before each of 200 requests, and behind them all.
fn step_all(rt: &impl Abort, rig: &mut Rig, behind: &mut Vec<Sources>) -> Result<(), AllocError> {
    for position in 0..200 {
        behind.push(carried(&rig.state))?;
        rig.ask(rt, &request_at(position));
    }
    behind.push(carried(&rig.state))?;
    Ok(())
}

// So it is from the start of a plant.
fn step(rt: &impl Abort, alloc: Global, plant: &Plant) -> Result<Vec<Sources>, AllocError> {
    let mut behind = Vec::new(alloc);
    let mut rig = Rig::of(alloc, plant)?;
    step_all(rt, &mut rig, &mut behind)?;
    Ok(behind)
}

// One order, which leads where a plant is behind as many requests as were applied.
fn is_followed(
    rt: &impl Abort,
    alloc: Global,
    plant: &Plant,
    number: u64,
    behind: &[Sources],
) -> Result<(), AllocError> {
    let (applied, sources) = tried(rt, alloc, plant, 10, Trial::Order(number))?;
    assert!(rt; applied > 20 && behind.get(applied as usize) == Some(&sources));
    Ok(())
}

#[test]
fn a_thousand_orders_are_followed(rt: HostRuntime) -> Result<(), Fail> {
    let plant = Plant::bench(rt.alloc())?;
    let behind = step(&rt, rt.alloc(), &plant)?;
    for number in 0..1_000 {
        is_followed(&rt, rt.alloc(), &plant, number, &behind)?;
    }
    Ok(())
}
