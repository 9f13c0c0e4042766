//! A plant file, and edits of it: one for each fault, with the fault's line, and those at the limits.

use plant_file::PlantFault;
use plant_rules::read;
use std::alloc::{AllocError, Global};

// A plant file that has each section. Source 3 of matrix 0 stands for source 2 of matrix 1.
const PLANT: &str = r#"title = "House"
[server]
idle_ms = 250
[[level]]
matrix = 0
level = 0
sources = 4
destinations = 4
source_names = ["CAM", "MIX"]
[[level]]
matrix = 0
level = 1
sources = 1
destinations = 2
[[level]]
matrix = 1
level = 0
sources = 4
destinations = 2
[[remote]]
matrix = 0
level = 0
source = 3
from = 1
from_source = 2
[[pool]]
from = 1
to = 0
level = 0
ties = 2
[[device]]
name = "mixer"
matrix = 0
source = 1
[[bus]]
device = "mixer"
matrix = 0
destination = 1
switch_matrix = 0
switch_level = 1
switch_destination = 1
[[air]]
matrix = 0
destination = 2
[[preview]]
matrix = 0
destination = 3
[[display]]
screen = 1
index = 0
matrix = 1
destination = 0
[[panel]]
device = 5
port = 9000
"#;

type Edit = (&'static str, &'static str, &'static str);

// What stands once in that file, what stands in its place, and the line of the fault, or the title where there is none.
const EDITS: &[Edit] = &[
    ("House", "House", "House"),
    ("idle_ms", "idle_ms = 1\nidle_ms", "NotToml"),
    ("title", "titel", "Missing at top 0 title"),
    ("250", "1.0", "WrongType at server 0 idle_ms"),
    (
        "ties = 2",
        "ties = -9223372036854775808",
        "OutOfRange at pool 0 ties: -9223372036854775808 not in 1 to 1024",
    ),
    ("MIX", "S3", "Twice at level 0 source_names"),
    ("to = 0", "to = 2", "NoSuchThing at pool 0 to"),
    (
        "source = 1\n",
        "source = 3\n",
        "NotLocal at device 0 source",
    ),
    (
        "from = 1\nto = 0",
        "from = 0\nto = 1",
        "NoPool at remote 0 from",
    ),
    // All ties may be kept, and no more; the limit of the key itself comes first.
    ("ties = 2", "ties = 2\nreserve = 2", "House"),
    (
        "ties = 2",
        "ties = 1\nreserve = 2",
        "OutOfRange at pool 0 reserve: 2 not in 0 to 1",
    ),
    (
        "ties = 2",
        "ties = 2\nreserve = 1025",
        "OutOfRange at pool 0 reserve: 1025 not in 0 to 1024",
    ),
    // The most sources and destinations, of a level and of all together.
    (
        "sources = 4\ndestinations = 4",
        "sources = 65536\ndestinations = 4",
        "OutOfRange at level 0 sources: 65536 not in 1 to 65535",
    ),
    (
        "sources = 4\ndestinations = 4",
        "sources = 4\ndestinations = 65537",
        "OutOfRange at level 0 destinations: 65537 not in 1 to 65536",
    ),
    (
        "sources = 4\ndestinations = 4",
        "sources = 65531\ndestinations = 65532",
        "House",
    ),
    (
        "sources = 4\ndestinations = 4",
        "sources = 65532\ndestinations = 65532",
        "OutOfRange at level 0 sources: 65537 not in 1 to 65536",
    ),
    // The last numbers that a key takes.
    (
        "from_source = 2",
        "from_source = 65534",
        "NoSuchThing at remote 0 from_source",
    ),
    (
        "from_source = 2",
        "from_source = 65535",
        "OutOfRange at remote 0 from_source: 65535 not in 0 to 65534",
    ),
    (
        "destination = 3",
        "destination = 65535",
        "NoSuchThing at preview 0 destination",
    ),
    (
        "destination = 3",
        "destination = 65536",
        "OutOfRange at preview 0 destination: 65536 not in 0 to 65535",
    ),
];

// The line of a text's fault, or its title where it has none.
fn line_of(alloc: Global, text: &str) -> Result<String, AllocError> {
    match read(alloc, text.as_bytes()) {
        Ok(file) => String::from_str(alloc, file.title().as_str()),
        Err(PlantFault::NoMemory) => Err(AllocError),
        Err(fault) => fault.text(alloc),
    }
}

// Whether the edited file has the line.
fn is_told(alloc: Global, edit: &Edit) -> Result<bool, AllocError> {
    let (old, new, line) = *edit;
    let text = PLANT.replace(alloc, old, new)?;
    Ok(line_of(alloc, &text)?.as_str() == line)
}

#[test]
fn each_edit_is_read_or_refused_with_its_line(rt: HostRuntime) {
    for edit in EDITS {
        assert!(rt; is_told(rt.alloc(), edit) == Ok(true));
    }
}
