//! One short use of `plant_config`.

use plant_config::{DestId, Plant, Point};
use std::test::Fail;

#[test]
fn a_destination_by_its_place(rt: HostRuntime) -> Result<(), Fail> {
    let plant = Plant::bench(rt.alloc())?;
    let place = Point {
        matrix: 0,
        level: 0,
        dest: 5,
    };

    // Its number in the whole plant, and from that number its place again.
    let dest = DestId::of(5);
    assert!(rt; plant.dest_of(place) == Some(dest));
    assert!(rt; plant.point(dest) == place);

    // The level has the destinations 0 to 31.
    assert!(rt; plant.dest(0, 0, 32) == None);
    Ok(())
}
