//! A driver's events row by row, the edges of wide levels, and many worlds in which it is held to a plain model.

ghost use Rattle.std.specs.Prelude.{◌≡◌};
ghost use Rattle.matrix_driver.specs.Levels.{short_level, wide_level};

mod bench;
mod plain;

use bench::{Bench, Roll};
use matrix_driver::{Driver, DriverEvent};
use std::alloc::{AllocError, Global};
use std::process::Abort;
use std::test::Fail;
use swp08_messages::{Message, PARKED, Point};

// The place of a destination of matrix 0, level 0.
fn at(dest: u16) -> Point {
    Point {
        matrix: 0,
        level: 0,
        dest,
    }
}

// The connect of a destination, and the answer to it.
fn connect(dest: u16, source: Option<u16>) -> Message {
    Message::Connect {
        at: at(dest),
        source,
    }
}

fn connected(dest: u16, source: Option<u16>) -> Message {
    Message::Connected {
        at: at(dest),
        source,
    }
}

// What a driver sends as connects are wanted, overdue and answered, and what it says at the end.
fn sends_one_at_a_time(rt: &impl Abort, driver: &mut Driver)
    requires { driver.old.level ≡ short_level 0 0 2 }
{
    let (first, second) = (Some(3), Some(4));
    // Neither a tally nor the answer of another source is what is waited for.
    let tally = Message::Tally {
        at: at(0),
        source: first,
    };
    let sent = [
        driver.event(&DriverEvent::Timeout),
        driver.event(&DriverEvent::Want {
            dest: 0,
            source: first,
        }),
        driver.event(&DriverEvent::Want {
            dest: 1,
            source: second,
        }),
        driver.event(&DriverEvent::Timeout),
        driver.event(&DriverEvent::Heard(connected(0, second))),
        driver.event(&DriverEvent::Heard(tally)),
        driver.event(&DriverEvent::Heard(connected(0, first))),
        driver.event(&DriverEvent::Heard(connected(0, first))),
        driver.outstanding(),
    ];
    let (connect_0, connect_1) = (Some(connect(0, first)), Some(connect(1, second)));
    assert!(rt;
        sent == [
            None, connect_0, None, connect_0, None, None, connect_1, None, connect_1,
        ]
    );
    let known = (driver.wanted(1), driver.settled(1), driver.settled(0));
    assert!(rt; known == (Some(second), None, Some(first)));
}

#[test]
fn one_connect_is_outstanding_at_a_time(rt: HostRuntime) -> Result<(), Fail> {
    sends_one_at_a_time(&rt, &mut Driver::new(rt.alloc(), 0, 0, 2)?);
    Ok(())
}

// An extended connect, and the answer to it.
fn ext_connect(dest: u16, source: Option<u16>) -> Message {
    Message::ExtConnect {
        at: at(dest),
        source,
    }
}

fn ext_connected(dest: u16, source: Option<u16>) -> Message {
    Message::ExtConnected {
        at: at(dest),
        source,
    }
}

// What a driver sends of the last destination and source of the short commands, of the first that need the extended ones,
// and of the same destination with a source that only these have.
fn sends_extended(rt: &impl Abort, driver: &mut Driver)
    requires { driver.old.level ≡ wide_level 0 0 65536 }
{
    let first = [
        driver.event(&DriverEvent::Want {
            dest: 1023,
            source: Some(1022),
        }),
        driver.event(&DriverEvent::Want {
            dest: 1024,
            source: None,
        }),
        driver.event(&DriverEvent::Heard(connected(1023, Some(1022)))),
        driver.event(&DriverEvent::Heard(connected(1024, None))),
    ];
    let (short, wide) = (connect(1023, Some(1022)), ext_connect(1024, None));
    assert!(rt; first == [Some(short), None, Some(wide), None]);
    assert!(rt; driver.settled(1024) == None);

    let then = [
        driver.event(&DriverEvent::Want {
            dest: 65_535,
            source: Some(65_534),
        }),
        driver.event(&DriverEvent::Heard(ext_connected(1024, None))),
    ];
    assert!(rt; then == [None, Some(ext_connect(65_535, Some(65_534)))]);
    assert!(rt; driver.settled(1024) == Some(None));
}

#[test]
fn extended_commands_are_sent_where_short_ones_have_no_room(rt: HostRuntime) -> Result<(), Fail> {
    sends_extended(&rt, &mut Driver::new_wide(rt.alloc(), 0, 0, 65_536)?);
    Ok(())
}

#[test]
fn ten_thousand_worlds_go_as_the_plain_model(rt: HostRuntime) -> Result<(), Fail> {
    for seed in 0..10_000 {
        assert!(rt; agrees(rt.alloc(), seed)?);
    }
    Ok(())
}

// Whether a world of 60 steps goes as the plain model, and what is settled is had after each of them. Of ten steps as many
// lose a message as the last digit of the seed says.
fn agrees(alloc: Global, seed: u32) -> Result<bool, AllocError> {
    let mut bench = Bench::new(alloc)?;
    let mut roll = Roll::new(seed);
    for _ in 0..60 {
        if !bench.step(&mut roll, seed % 10)? {
            return Ok(false);
        }
    }
    Ok(true)
}
