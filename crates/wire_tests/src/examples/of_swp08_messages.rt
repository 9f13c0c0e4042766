//! A connect written and read back, and DATA that is refused.

use std::test::Fail;
use swp08_messages::{Message, Point, ReadFault};

#[test]
fn a_connect_is_written_and_read_back(rt: HostRuntime) -> Result<(), Fail> {
    let connect = Message::Connect {
        at: Point {
            matrix: 0,
            level: 0,
            dest: 5,
        },
        source: Some(3),
    };
    let mut out = Vec::with_capacity(rt.alloc(), Message::MAX_LEN)?;
    assert!(rt; connect.in_range());
    connect.write(&mut out);
    assert!(rt; out.as_slice() == [2, 0, 0, 5, 3].as_slice() && Message::read(&out) == Ok(connect));
    assert!(rt; Message::read(&[2, 0, 0, 5]) == Err(ReadFault::WrongLength(4, 5)));
    Ok(())
}
