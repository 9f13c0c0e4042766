//! DATA that are read, DATA that are refused and what their faults say, and the last numbers of each field.

use std::test::Fail;
use swp08_messages::{Message, Point};

// The last place that an extended command names, and the last that the others do.
const LAST_EXT: Point = Point {
    matrix: 15,
    level: 15,
    dest: 65_535,
};

const LAST: Point = Point {
    matrix: 15,
    level: 15,
    dest: 1_023,
};

// DATA, and their message or what is said of them. The command is looked at first, then the length, then the bytes in order.
const ROWS: &[(&[u8], Result<Message, &str>)] = &[
    (b"\x05\x00\x00\x05", Err("command 5 is unknown")),
    (b"", Err("0 bytes of DATA, where 1 are wanted")),
    (
        b"\x01\x00\x00\x80\x00",
        Err("5 bytes of DATA, where 4 are wanted"),
    ),
    // An interrogate of a protect has one byte more, or not.
    (
        b"\x0A\x00\x00\x05\x01\x00",
        Err("6 bytes of DATA, where 4 are wanted"),
    ),
    (
        b"\x0A\x00\x00\x05\x80",
        Err("byte 128 at place 4 is no value of its field"),
    ),
    (
        b"\x0B\x00\x02\x00\x80\x80",
        Err("byte 2 at place 2 is no value of its field"),
    ),
    (
        b"\x02\xFF\x77\x7F\x7E",
        Ok(Message::Connect {
            at: LAST,
            source: Some(1_022),
        }),
    ),
    // The extended commands have a byte each for matrix and level, and two for each number.
    (
        b"\x81\x00\x00\x0B\xB8",
        Ok(Message::ExtInterrogate {
            at: Point {
                matrix: 0,
                level: 0,
                dest: 3_000,
            },
        }),
    ),
    (
        b"\x82\x0F\x0F\xFF\xFF\xFF\xFE",
        Ok(Message::ExtConnect {
            at: LAST_EXT,
            source: Some(65_534),
        }),
    ),
    (
        b"\x83\x0F\x0F\xFF\xFF\xFF\xFF",
        Ok(Message::ExtTally {
            at: LAST_EXT,
            source: None,
        }),
    ),
    (
        b"\x84\x00\x00\x07\xD0\x05\xDC",
        Ok(Message::ExtConnected {
            at: Point {
                matrix: 0,
                level: 0,
                dest: 2_000,
            },
            source: Some(1_500),
        }),
    ),
    (
        b"\x82\x00\x00\x00\x05\x05",
        Err("6 bytes of DATA, where 7 are wanted"),
    ),
    (
        b"\x81\x10\x00\x00\x05",
        Err("byte 16 at place 1 is no value of its field"),
    ),
    (
        b"\x84\x0F\x10\xFF\xFF\xFF\xFF",
        Err("byte 16 at place 2 is no value of its field"),
    ),
];

#[test]
fn data_are_read_or_refused(rt: HostRuntime) -> Result<(), Fail> {
    for (data, wanted) in ROWS {
        match Message::read(data) {
            Ok(message) => assert!(rt; *wanted == Ok(message), "of {data:?}"),
            Err(fault) => assert!(rt;
                *wanted == Err(fault.to_string(rt.alloc())?.as_str()),
                "of {data:?}"
            ),
        }
    }
    Ok(())
}

// Messages, and whether they are in their ranges: the last numbers, and one past each.
const RANGES: &[(Message, bool)] = &[
    (
        Message::Tally {
            at: LAST,
            source: Some(1_022),
        },
        true,
    ),
    (
        Message::Tally {
            at: LAST,
            source: Some(1_023),
        },
        false,
    ),
    (
        Message::Interrogate {
            at: Point {
                dest: 1_024,
                ..LAST
            },
        },
        false,
    ),
    (
        Message::ExtTally {
            at: LAST_EXT,
            source: Some(65_534),
        },
        true,
    ),
    (
        Message::ExtTally {
            at: LAST_EXT,
            source: Some(65_535),
        },
        false,
    ),
    (
        Message::ExtInterrogate {
            at: Point {
                level: 16,
                ..LAST_EXT
            },
        },
        false,
    ),
];

#[test]
fn the_last_numbers_are_in_their_ranges(rt: HostRuntime) {
    for (message, within) in RANGES {
        assert!(rt; message.in_range() == *within, "{message:?}");
    }
}
