//! `salvo_groups` in use.

use plant_config::{Change, DestId, SourceId};
use salvo_groups::{Groups, Store};
use std::test::Fail;

// What destination of the plant is given what source.
fn given(dest: u32, source: u32) -> Change {
    Change {
        dest: DestId::of(dest),
        source: Some(SourceId::of(source)),
    }
}

#[test]
fn a_changed_entry_keeps_its_place(rt: HostRuntime) -> Result<(), Fail> {
    let mut groups = Groups::new(rt.alloc())?;
    assert!(rt; groups.store(7, given(5, 1)) == Store::Stored);
    assert!(rt; groups.store(7, given(4, 2)) == Store::Stored);
    assert!(rt; groups.store(7, given(5, 3)) == Store::Stored);

    assert!(rt; groups.count(7) == 2);
    assert!(rt; groups.entry(7, 0) == Some(given(5, 3)));
    assert!(rt; groups.entry(7, 1) == Some(given(4, 2)));
    groups.clear(7);
    assert!(rt; groups.entry(7, 0) == None);
    Ok(())
}
