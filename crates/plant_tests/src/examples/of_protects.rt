//! `protects` in use.

use plant_config::DestId;
use protects::Protects;
use std::test::Fail;

#[test]
fn a_protect_keeps_other_devices_out(rt: HostRuntime) -> Result<(), Fail> {
    let mut protects = Protects::new(rt.alloc(), 6)?;
    let dest = DestId::of(5);
    let (studio, gallery, master) = (7, 9, 1);

    assert!(rt; protects.protect(studio, dest));
    assert!(rt; !protects.allows(gallery, dest));
    assert!(rt; !protects.protect(gallery, dest));
    assert!(rt; !protects.lift(gallery, false, dest));
    assert!(rt; protects.owner(dest) == Some(studio));

    assert!(rt; protects.lift(master, true, dest));
    assert!(rt; protects.owner(dest) == None);
    Ok(())
}
