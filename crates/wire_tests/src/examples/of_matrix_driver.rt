//! `matrix_driver` in use.

use matrix_driver::{Driver, DriverEvent};
use std::test::Fail;
use swp08_messages::{Message, Point};

#[test]
fn a_destination_is_settled_when_the_frame_has_said_so(rt: HostRuntime) -> Result<(), Fail> {
    let mut driver = Driver::new(rt.alloc(), 0, 0, 2)?;
    let at = Point {
        matrix: 0,
        level: 0,
        dest: 0,
    };
    let source = Some(3);
    let want = DriverEvent::Want { dest: 0, source };

    // The connect is sent, and again when its answer is overdue.
    assert!(rt; driver.event(&want) == Some(Message::Connect { at, source }));
    assert!(rt; driver.event(&DriverEvent::Timeout) == Some(Message::Connect { at, source }));
    assert!(rt; driver.settled(0) == None);

    // The frame has made it: nothing is outstanding any more.
    let told = DriverEvent::Heard(Message::Connected { at, source });
    assert!(rt; driver.event(&told) == None);
    assert!(rt; driver.settled(0) == Some(source) && driver.outstanding() == None);
    Ok(())
}
