//! Plants of a text, and that of a studio with two mixers, one bus of which has a switch, and two displays.

use plant_config::Plant;
use std::alloc::Global;
use std::test::Fail;

/// The plant of a text. No clause says that it is the text's, since all that asks for one would have the whole text before it.
pub(crate) fn plant_of(alloc: Global, text: &[u8]) -> Result<Plant, Fail> {
    Ok(Plant::from_toml(alloc, text)?)
}

pub(crate) const STUDIO: &[u8] = br#"
title = "Studio"
[[level]]
matrix = 0
level = 0
sources = 24
destinations = 32
source_names = ["BLACK", "CAM1", "CAM2", "CAM3"]
[[level]]
matrix = 0
level = 1
sources = 2
destinations = 4
[[device]]
name = "ME1"
matrix = 0
source = 20
[[device]]
name = "ME2"
matrix = 0
source = 21
[[bus]]
device = "ME1"
matrix = 0
destination = 10
[[bus]]
device = "ME1"
matrix = 0
destination = 11
switch_matrix = 0
switch_level = 1
switch_destination = 0
[[bus]]
device = "ME2"
matrix = 0
destination = 12
[[air]]
matrix = 0
destination = 0
[[preview]]
matrix = 0
destination = 1
[[display]]
screen = 0
index = 1
matrix = 0
destination = 2
[[display]]
screen = 0
index = 2
matrix = 0
destination = 3
[[panel]]
device = 1
port = 9001
[[panel]]
device = 2
port = 9002
master = true
"#;
