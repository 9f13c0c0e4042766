//! One short use of `plant_names`.

use plant_config::{Plant, SourceId};
use plant_names::{Names, Paged};
use std::alloc::{AllocError, Global};

/// The names of the bench plant, which has the sources S0 to S31 at matrix 0, level 0.
pub(crate) fn bench_names(alloc: Global) -> Result<Names, AllocError> {
    Names::new(alloc, &Plant::bench(alloc)?)
}

fn are_named(names: &Names) -> bool {
    names.find_source(0, 0, b"S5") == Some(SourceId::of(5))
        && names.find_source(0, 0, b"S32") == None
}

// Names of 8 bytes come 16 at a time, and behind source 30 there is one more.
fn are_paged(alloc: Global, names: &Names) -> Result<bool, AllocError> {
    let mut out = Vec::with_capacity(alloc, 134)?;
    let first = names.source_page(0, 0, 1, 0, false, &mut out);
    out.clear();
    let last = names.source_page(0, 0, 1, 30, false, &mut out);
    Ok(
        first == Paged::More(16)
            && last == Paged::Last
            && out.as_slice() == b"\x6A\0\x01\0\x1E\x02S30     S31     ".as_slice(),
    )
}

#[test]
fn a_name_and_a_page(rt: HostRuntime) -> Result<(), AllocError> {
    let names = bench_names(rt.alloc())?;
    assert!(rt; are_named(&names) && are_paged(rt.alloc(), &names) == Ok(true));
    Ok(())
}
