//! What is asked of plants, one row after the other, and how it is answered.

use super::Act::{
    Asks, AsksExt, AsksOwner, Clears, Connects, ConnectsExt, Dumps, IsPolled, Leaves, Lifts,
    Protects, Reads, Stores, Takes,
};
use super::Reply::{
    Connected, Done, Entry, ExtConnected, ExtTally, Lifted, Nothing, Owner, Protected, Stored,
    Tally,
};
use super::Row;
use swp08_messages::{GoStatus, Validity};

/// Connects of the bench plant, and who is told of them.
pub(super) const BENCH: [Row; 22] = [
    (0, (0, 0, 5), Asks, Tally(None)),
    (0, (0, 0, 5), Connects(Some(3)), Connected(Some(3))),
    (1, (0, 0, 5), Asks, Tally(Some(3))),
    // No such source, no such destination, no such level.
    (0, (0, 0, 5), Connects(Some(32)), Tally(Some(3))),
    (0, (0, 0, 32), Connects(Some(3)), Tally(None)),
    (0, (0, 5, 5), Connects(Some(3)), Tally(None)),
    // The other panel hears, once.
    (0, (0, 0, 5), IsPolled, Nothing),
    (1, (0, 0, 5), IsPolled, Connected(Some(3))),
    (1, (0, 0, 5), IsPolled, Nothing),
    // Nobody hears of what stands already.
    (0, (0, 0, 5), Connects(Some(3)), Connected(Some(3))),
    (1, (0, 0, 5), IsPolled, Nothing),
    // The lowest destination comes first, with what stands by then.
    (0, (0, 0, 31), Connects(Some(31)), Connected(Some(31))),
    (0, (0, 0, 0), Connects(Some(0)), Connected(Some(0))),
    (0, (0, 0, 0), Connects(None), Connected(None)),
    (1, (0, 0, 0), IsPolled, Connected(None)),
    (1, (0, 0, 31), IsPolled, Connected(Some(31))),
    // Whoever has left is answered and hears nothing.
    (1, (0, 0, 0), Leaves, Nothing),
    (0, (0, 0, 6), Connects(Some(3)), Connected(Some(3))),
    (1, (0, 0, 6), IsPolled, Nothing),
    (1, (0, 0, 7), Connects(Some(4)), Connected(Some(4))),
    (0, (0, 0, 7), IsPolled, Connected(Some(4))),
    (0, (0, 0, 7), IsPolled, Nothing),
];

/// Protects of the bench plant, whose panels act for the devices 1 and 2, the second as a master.
pub(super) const PROTECTING: [Row; 22] = [
    (0, (0, 0, 5), AsksOwner, Owner(None)),
    (1, (0, 0, 5), Protects, Protected(2)),
    (0, (0, 0, 5), IsPolled, Protected(2)),
    // Nobody hears of what stands already.
    (1, (0, 0, 5), Protects, Protected(2)),
    (0, (0, 0, 5), IsPolled, Nothing),
    (0, (0, 0, 5), AsksOwner, Owner(Some(2))),
    // Neither another source nor the one that stands.
    (0, (0, 0, 5), Connects(Some(4)), Tally(None)),
    (0, (0, 0, 5), Connects(None), Tally(None)),
    (0, (0, 0, 5), Protects, Owner(Some(2))),
    (0, (0, 0, 5), Lifts, Owner(Some(2))),
    (1, (0, 0, 5), Connects(Some(4)), Connected(Some(4))),
    (1, (0, 0, 5), Lifts, Lifted),
    // For one destination the source comes first.
    (0, (0, 0, 5), IsPolled, Connected(Some(4))),
    (0, (0, 0, 5), IsPolled, Lifted),
    // A master may lift what another device protects, and nothing else.
    (0, (0, 0, 6), Protects, Protected(1)),
    (1, (0, 0, 6), Connects(Some(3)), Tally(None)),
    (1, (0, 0, 6), Protects, Owner(Some(1))),
    (1, (0, 0, 6), Lifts, Lifted),
    // What is unprotected is lifted without a change.
    (0, (0, 0, 7), Lifts, Lifted),
    (1, (0, 0, 6), IsPolled, Lifted),
    (1, (0, 0, 7), IsPolled, Nothing),
    // The bench has no such level.
    (1, (0, 5, 5), Protects, Owner(None)),
];

/// Salvo groups of the bench plant.
pub(super) const SALVOS: [Row; 23] = [
    // Entries stand in the order in which they come, and a changed one stays in its place.
    (1, (0, 0, 5), Stores(Some(6), 0), Stored(Some(6), 0)),
    (1, (0, 0, 4), Stores(None, 0), Stored(None, 0)),
    (1, (0, 0, 5), Stores(Some(7), 0), Stored(Some(7), 0)),
    (1, (0, 0, 32), Stores(Some(1), 0), Nothing),
    (1, (0, 0, 1), Stores(Some(32), 0), Nothing),
    (
        0,
        (0, 0, 5),
        Reads(0, 0),
        Entry(Some(7), 0, 0, Validity::More),
    ),
    (0, (0, 0, 4), Reads(0, 1), Entry(None, 0, 1, Validity::Last)),
    (
        0,
        (0, 0, 0),
        Reads(0, 2),
        Entry(Some(0), 0, 2, Validity::NoEntry),
    ),
    // No other group has them.
    (
        0,
        (0, 0, 0),
        Reads(127, 0),
        Entry(Some(0), 127, 0, Validity::NoEntry),
    ),
    (0, (0, 0, 0), Takes(127), Done(GoStatus::Empty, 127)),
    (0, (0, 0, 5), Protects, Protected(1)),
    (1, (0, 0, 5), IsPolled, Protected(1)),
    (1, (0, 0, 0), Takes(0), Done(GoStatus::Protected, 0)),
    (1, (0, 0, 5), Asks, Tally(None)),
    (0, (0, 0, 0), Takes(0), Done(GoStatus::Made, 0)),
    (1, (0, 0, 5), Asks, Tally(Some(7))),
    // Who asked hears of it too, and nobody of what stood already.
    (0, (0, 0, 5), IsPolled, Connected(Some(7))),
    (0, (0, 0, 4), IsPolled, Nothing),
    (1, (0, 0, 5), IsPolled, Connected(Some(7))),
    // The group is empty now.
    (0, (0, 0, 0), Takes(0), Done(GoStatus::Empty, 0)),
    (1, (0, 0, 4), Stores(Some(1), 9), Stored(Some(1), 9)),
    (1, (0, 0, 0), Clears(9), Done(GoStatus::Cleared, 9)),
    (1, (0, 0, 0), Clears(9), Done(GoStatus::Empty, 9)),
];

/// Group 3 of a plant of 257 destinations, once it has 256 entries.
pub(super) const FULL: [Row; 4] = [
    (0, (0, 0, 256), Stores(Some(0), 3), Nothing),
    (0, (0, 0, 255), Stores(None, 3), Stored(None, 3)),
    (
        0,
        (0, 0, 254),
        Reads(3, 254),
        Entry(Some(0), 3, 254, Validity::More),
    ),
    (
        0,
        (0, 0, 255),
        Reads(3, 255),
        Entry(None, 3, 255, Validity::Last),
    ),
];

/// Two sources of matrix 0 are remote ones of matrix 1, with one tie for both.
pub(super) const POOL: &str = r#"
title = "Pool"
level = [
    { matrix = 0, level = 0, sources = 2, destinations = 1 },
    { matrix = 1, level = 0, sources = 3, destinations = 3 },
]
remote = [
    { matrix = 1, level = 0, source = 1, from = 0, from_source = 0 },
    { matrix = 1, level = 0, source = 2, from = 0, from_source = 1 },
]
pool = [{ from = 0, to = 1, level = 0, ties = 1 }]
panel = [{ device = 1, port = 9001 }]
"#;

/// Connects and groups of that plant.
pub(super) const TRUNK: [Row; 14] = [
    (0, (1, 0, 0), Connects(Some(1)), Connected(Some(1))),
    // The same tie brings one origin to many, and no other one.
    (0, (1, 0, 1), Connects(Some(1)), Connected(Some(1))),
    (0, (1, 0, 2), Connects(Some(2)), Tally(None)),
    (0, (1, 0, 0), Stores(Some(0), 1), Stored(Some(0), 1)),
    (0, (1, 0, 2), Stores(Some(2), 1), Stored(Some(2), 1)),
    (0, (0, 0, 0), Takes(1), Done(GoStatus::NoTie, 1)),
    (0, (1, 0, 1), Stores(None, 1), Stored(None, 1)),
    (0, (0, 0, 0), Takes(1), Done(GoStatus::Made, 1)),
    // Two destinations that share the tie go over to another origin at once, and neither does alone.
    (0, (1, 0, 1), Connects(Some(2)), Connected(Some(2))),
    (0, (1, 0, 1), Connects(Some(1)), Tally(Some(2))),
    (0, (1, 0, 1), Stores(Some(1), 2), Stored(Some(1), 2)),
    (0, (1, 0, 2), Stores(Some(1), 2), Stored(Some(1), 2)),
    (0, (0, 0, 0), Takes(2), Done(GoStatus::Made, 2)),
    (0, (1, 0, 2), Asks, Tally(Some(1))),
];

/// A wide level, and two panels.
pub(super) const WIDE: &str = r#"
title = "Wide"
level = [{ matrix = 0, level = 0, sources = 2000, destinations = 3000 }]
panel = [{ device = 1, port = 9001 }, { device = 2, port = 9002 }]
"#;

/// The widest level, of which a destination is on air, and two panels.
pub(crate) const WIDEST: &str = r#"
title = "Widest"
level = [{ matrix = 0, level = 0, sources = 65535, destinations = 65536 }]
air = [{ matrix = 0, destination = 0 }]
panel = [{ device = 1, port = 9001 }, { device = 2, port = 9002 }]
"#;

/// Extended commands and others on the first of these.
pub(super) const EXTENDED: [Row; 24] = [
    (
        0,
        (0, 0, 2000),
        ConnectsExt(Some(1500)),
        ExtConnected(Some(1500)),
    ),
    (1, (0, 0, 2000), IsPolled, ExtConnected(Some(1500))),
    (
        0,
        (0, 0, 5),
        ConnectsExt(Some(1500)),
        ExtConnected(Some(1500)),
    ),
    (0, (0, 0, 5), Asks, ExtTally(Some(1500))),
    (1, (0, 0, 5), IsPolled, ExtConnected(Some(1500))),
    // No such destination, no such source.
    (0, (0, 0, 3000), AsksExt, ExtTally(None)),
    (0, (0, 0, 3000), ConnectsExt(Some(0)), ExtTally(None)),
    (0, (0, 0, 2999), ConnectsExt(Some(2000)), ExtTally(None)),
    // The last numbers that other commands tell, and the first that they don't.
    (0, (0, 0, 1023), Connects(Some(1022)), Connected(Some(1022))),
    (0, (0, 0, 1023), Asks, Tally(Some(1022))),
    (0, (0, 0, 1023), AsksExt, ExtTally(Some(1022))),
    (1, (0, 0, 1023), IsPolled, Connected(Some(1022))),
    (
        0,
        (0, 0, 1023),
        ConnectsExt(Some(1023)),
        ExtConnected(Some(1023)),
    ),
    (0, (0, 0, 1023), Asks, ExtTally(Some(1023))),
    (1, (0, 0, 1023), IsPolled, ExtConnected(Some(1023))),
    (0, (0, 0, 1024), ConnectsExt(Some(3)), ExtConnected(Some(3))),
    (1, (0, 0, 1024), IsPolled, ExtConnected(Some(3))),
    // A connect that isn't made tells what stands.
    (1, (0, 0, 5), Protects, Protected(2)),
    (0, (0, 0, 5), Connects(Some(4)), ExtTally(Some(1500))),
    (0, (0, 0, 5), ConnectsExt(Some(4)), ExtTally(Some(1500))),
    (0, (0, 0, 5), IsPolled, Protected(2)),
    // A level that is wide isn't dumped.
    (0, (0, 0, 0), Dumps, Nothing),
    (1, (0, 0, 5), ConnectsExt(None), ExtConnected(None)),
    (0, (0, 0, 5), IsPolled, Connected(None)),
];

/// The last numbers of the widest level.
pub(super) const LAST: [Row; 5] = [
    (
        0,
        (0, 0, 65_535),
        ConnectsExt(Some(65_534)),
        ExtConnected(Some(65_534)),
    ),
    (1, (0, 0, 65_535), AsksExt, ExtTally(Some(65_534))),
    (1, (0, 0, 65_535), IsPolled, ExtConnected(Some(65_534))),
    (1, (0, 0, 65_535), ConnectsExt(None), ExtConnected(None)),
    (0, (0, 0, 65_535), IsPolled, ExtConnected(None)),
];

/// Remote sources of the studio, whose one tie is kept for masters, by a panel that is no master and by one that is.
pub(super) const KEPT: [Row; 14] = [
    (0, (1, 0, 0), Connects(Some(16)), Tally(None)),
    (0, (1, 0, 0), Stores(Some(16), 1), Stored(Some(16), 1)),
    (0, (1, 0, 0), Takes(1), Done(GoStatus::NoTie, 1)),
    (1, (1, 0, 0), Connects(Some(16)), Connected(Some(16))),
    // What comes already may come to another destination too.
    (0, (1, 0, 1), Connects(Some(16)), Connected(Some(16))),
    (0, (1, 0, 0), IsPolled, Connected(Some(16))),
    (0, (1, 0, 0), Takes(1), Done(GoStatus::Made, 1)),
    // No more than the tie itself is for a master.
    (1, (1, 0, 1), Connects(Some(17)), Tally(Some(16))),
    // What another device protects isn't for a master either.
    (0, (1, 0, 1), Protects, Protected(1)),
    (1, (1, 0, 1), Connects(Some(16)), Tally(Some(16))),
    // Once nothing comes, the tie is kept again.
    (0, (1, 0, 1), Connects(None), Connected(None)),
    (0, (1, 0, 0), Connects(None), Connected(None)),
    (0, (1, 0, 0), Connects(Some(16)), Tally(None)),
    (1, (1, 0, 0), Connects(Some(17)), Connected(Some(17))),
];
