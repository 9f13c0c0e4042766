//! The bench plant's copy.

use plant_config::Plant;
use std::alloc::AllocError;

fn is_bench(plant: &Plant) -> bool {
    plant.title().as_str() == "Bench"
        && plant.source_count() == 32
        && plant.destination_count() == 32
}

#[test]
fn the_bench_is_copied(rt: HostRuntime) -> Result<(), AllocError> {
    let plant = Plant::bench(rt.alloc())?;
    assert!(rt; matches!(&plant.copy(rt.alloc()), Ok(copy) if is_bench(copy)));
    Ok(())
}
