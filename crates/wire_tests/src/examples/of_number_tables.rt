//! `number_tables` in use.

use number_tables::{NumberMap, NumberSet};
use std::test::Fail;

#[test]
fn a_number_has_its_last_value(rt: HostRuntime) -> Result<(), Fail> {
    let mut seats = NumberMap::new(rt.alloc(), 3)?;

    seats.set(2, Some('a'));
    seats.set(0, Some('b'));
    seats.set(2, Some('c'));
    seats.set(0, None);

    assert!(rt; seats.get(2) == Some('c') && seats.get(0) == None);
    // Past the room no number has a value.
    assert!(rt; seats.get(3) == None);
    Ok(())
}

#[test]
fn the_lowest_member_goes_first(rt: HostRuntime) -> Result<(), Fail> {
    let mut numbers = NumberSet::new(rt.alloc())?;

    numbers.insert(64);
    numbers.insert(5);
    numbers.insert(64);
    assert!(rt; numbers.lowest() == Some(5));

    numbers.remove(5);
    assert!(rt; !numbers.contains(5) && numbers.lowest() == Some(64));

    numbers.clear();
    assert!(rt; numbers.is_empty());
    Ok(())
}
