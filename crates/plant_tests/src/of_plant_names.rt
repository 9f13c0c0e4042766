//! The destinations of the bench plant: by name, and a page of one name. The names of the widest level.

use crate::examples::of_plant_names::bench_names;
use crate::of_plant_core::WIDEST;
use plant_config::{DestId, Plant, SourceId};
use plant_names::{Names, Paged};
use std::alloc::{AllocError, Global};
use std::test::Fail;

fn are_named(names: &Names) -> bool {
    names.find_dest(0, 0, b"D31") == Some(DestId::of(31)) && names.find_dest(0, 0, b"D31 ") == None
}

// Whether there is a page of the one name behind destination 30, and none of a matrix that isn't there.
fn is_paged(alloc: Global, names: &Names) -> Result<bool, AllocError> {
    let mut out = Vec::with_capacity(alloc, 134)?;
    Ok(
        names.dest_page(1, 0, 0, true, &mut out) == Paged::Nothing
            && names.dest_page(0, 0, 5, true, &mut out) == Paged::Last
            && out.as_slice() == b"\x6B\0\0\0\x05\x01D5  ".as_slice(),
    )
}

#[test]
fn destinations_by_name_and_by_page(rt: HostRuntime) -> Result<(), AllocError> {
    let names = bench_names(rt.alloc())?;
    assert!(rt; are_named(&names) && is_paged(rt.alloc(), &names) == Ok(true));
    Ok(())
}

fn widest_names(alloc: Global) -> Result<Names, Fail> {
    Ok(Names::new(alloc, &Plant::from_toml(alloc, WIDEST.as_bytes())?)?)
}

// Whether the last name of the widest level is found, so often that to look through all names would take
// longer than a test may.
fn are_found(names: &Names) -> bool {
    for _turn in 0..200_000_u32 {
        if names.find_source(0, 0, b"S65534") != Some(SourceId::of(65_534)) {
            return false;
        }
    }
    names.find_source(0, 0, b"S65535") == None
        && names.find_dest(0, 0, b"D65535") == Some(DestId::of(65_535))
}

#[test]
fn the_widest_level_has_names(rt: HostRuntime) -> Result<(), Fail> {
    assert!(rt; are_found(&widest_names(rt.alloc())?));
    Ok(())
}
