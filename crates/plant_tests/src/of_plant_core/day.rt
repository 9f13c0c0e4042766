//! A day on a pool of four ties of which two are kept: a panel and a master connect, release and go, and are answered as a
//! plain count says.

use super::{Act, Reply, Rig, Row, Work, is_worked};
use std::process::Abort;
use std::test::Fail;
use swp08_messages::GoStatus;

// Panel 1 is a master. Of matrix 1 source 0 comes by no tie, and source 8 has the origin of source 1.
const PLANT: &str = r#"
title = "Day"
level = [
    { matrix = 0, level = 0, sources = 7, destinations = 1 },
    { matrix = 1, level = 0, sources = 9, destinations = 8 },
]
remote = [
    { matrix = 1, level = 0, source = 1, from = 0, from_source = 0 },
    { matrix = 1, level = 0, source = 2, from = 0, from_source = 1 },
    { matrix = 1, level = 0, source = 3, from = 0, from_source = 2 },
    { matrix = 1, level = 0, source = 4, from = 0, from_source = 3 },
    { matrix = 1, level = 0, source = 5, from = 0, from_source = 4 },
    { matrix = 1, level = 0, source = 6, from = 0, from_source = 5 },
    { matrix = 1, level = 0, source = 7, from = 0, from_source = 6 },
    { matrix = 1, level = 0, source = 8, from = 0, from_source = 0 },
]
pool = [{ from = 0, to = 1, level = 0, ties = 4, reserve = 2 }]
panel = [{ device = 1, port = 9001 }, { device = 2, port = 9002, master = true }]
"#;

/// What the destinations of matrix 1 are to carry; `None` where nothing is said of one.
type Changes = [Option<Option<u16>>; 8];

/// The plain count: what the destinations of matrix 1 carry, what group 0 has, and the number of the turn.
#[derive(Drop)]
struct Day {
    carried: [Option<u16>; 8],
    stored: Changes,
    number: u16,
}

// A bit for the origin of each source of matrix 1.
const ORIGINS: [u8; 9] = [0, 1, 2, 4, 8, 16, 32, 64, 1];

// How many different origins come over the pool.
fn count(carried: &[Option<u16>]) -> u32 {
    let mut seen = 0;
    for source in carried {
        if let Some(source) = source {
            seen |= ORIGINS.get(usize::from(*source)).copied().unwrap_or(0);
        }
    }
    seen.count_ones()
}

// Makes the changes if no more origins come by then than a panel may bring. Whether it does.
fn make(carried: &mut [Option<u16>; 8], changes: &Changes, master: bool) -> bool {
    let mut after = *carried;
    for (source, change) in after.iter_mut().zip(changes) {
        *source = change.unwrap_or(*source);
    }
    let most = if master { 4 } else { count(carried).max(2) };
    let may = count(&after) <= most;
    if may {
        *carried = after;
    }
    may
}

// Connects a destination, which is below 8, and says how that is answered.
fn connect(carried: &mut [Option<u16>; 8], dest: u16, source: Option<u16>, master: bool) -> Reply {
    let mut changes = [None; 8];
    if let Some(change) = changes.get_mut(usize::from(dest)) {
        *change = Some(source);
    }
    let stood = carried.get(usize::from(dest)).copied().flatten();
    if make(carried, &changes, master) {
        Reply::Connected(source)
    } else {
        Reply::Tally(stood)
    }
}

impl Day {
    // Stores a source in the group.
    fn store(&mut self, dest: u16, source: u16) -> Reply {
        if let Some(change) = self.stored.get_mut(usize::from(dest)) {
            *change = Some(Some(source));
        }
        Reply::Stored(Some(source), 0)
    }

    // Takes the group.
    fn go(&mut self, master: bool) -> Reply {
        let status = if self.stored.iter().all(|change| change.is_none()) {
            GoStatus::Empty
        } else if make(&mut self.carried, &self.stored, master) {
            self.stored = [None; 8];
            GoStatus::Made
        } else {
            GoStatus::NoTie
        };
        Reply::Done(status, 0)
    }

    // What is asked in the next turn, and how it is answered. All of it is drawn from one number.
    fn turn(&mut self) -> Row {
        self.number = self.number.wrapping_mul(25_173).wrapping_add(13_849);
        let drawn = self.number;
        let (dest, source) = (drawn / 512 % 8, drawn / 32 % 9);
        let master = drawn / 4_096 % 2 == 1;
        let (act, reply) = match drawn / 8_192 {
            0..=3 => (
                Act::Connects(Some(source)),
                connect(&mut self.carried, dest, Some(source), master),
            ),
            4 => (
                Act::Connects(None),
                connect(&mut self.carried, dest, None, master),
            ),
            5 | 6 => (Act::Stores(Some(source), 0), self.store(dest, source)),
            _ => (Act::Takes(0), self.go(master)),
        };
        (u32::from(master), (1, 0, dest), act, reply)
    }
}

// A day of so many turns.
pub(super) fn passes(rt: &impl Abort, rig: &mut Rig, turns: u32) {
    let mut day = Day {
        carried: [None; 8],
        stored: [None; 8],
        number: 1,
    };
    for _turn in 0..turns {
        rig.is_answered(rt, &day.turn());
    }
}

#[test]
fn a_day_is_answered_by_a_plain_count(rt: HostRuntime) -> Result<(), Fail> {
    is_worked(&rt, rt.alloc(), Some(PLANT), Work::Day)
}
