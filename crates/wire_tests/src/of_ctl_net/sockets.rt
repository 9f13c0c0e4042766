//! A link over a connection of this machine.

use ctl_io::{Sink, Write};
use ctl_net::{Link, LinkRead, TcpLink};
use std::io::{self, Read, Write as _};
use std::net::{TcpListener, TcpStream};
use std::test::Fail;
use std::time::Duration;

// A link over a connection, with room for 8 bytes, and the panel at its other end.
fn connected(rt: &HostRuntime) -> io::Result<(TcpLink<TcpStream>, TcpStream)> {
    let listener = TcpListener::bind(rt, "127.0.0.1:0")?;
    let panel = TcpStream::connect(rt, listener.local_addr()?)?;
    let (stream, _) = listener.accept()?;
    stream.set_read_timeout(Some(Duration::from_millis(20)))?;
    let room = Vec::with_capacity(rt.alloc(), 8)?;
    Ok((TcpLink::over(stream, room), panel))
}

#[test]
fn a_connection_is_read_until_it_ends(rt: HostRuntime) -> Result<(), Fail> {
    let (mut link, mut panel) = connected(&rt)?;
    let mut into = [0; 8];
    assert!(rt; link.read(&mut into) == LinkRead::Idle);
    assert!(rt; matches!(panel.write(b"ab"), Ok(2)) && link.read(&mut into) == LinkRead::Got(2));
    drop(panel);
    assert!(rt; link.read(&mut into) == LinkRead::End && link.idles() == 1);
    assert!(rt; link.read_faults() == 0 && link.write_faults() == 0);
    Ok(())
}

// What is written is sent as one before the next read; what there is no room for, before more is taken; and what is longer than
// the room, at once.
#[test]
fn what_is_written_is_sent_as_one(rt: HostRuntime) -> Result<(), Fail> {
    let (mut link, mut panel) = connected(&rt)?;
    let mut into = [0; 16];
    assert!(rt; link.write(b"ab") == Write::Took(2) && link.write(b"cde") == Write::Took(3));
    assert!(rt; link.read(&mut into) == LinkRead::Idle && matches!(panel.read(&mut into), Ok(5)));
    assert!(rt; link.write(b"fghijk") == Write::Took(6) && link.write(b"lmn") == Write::Took(3));
    assert!(rt; matches!(panel.read(&mut into), Ok(6)) && into.starts_with(b"fghijk"));
    assert!(rt; link.write(b"opqrstuvw") == Write::Took(9));
    assert!(rt; matches!(panel.read(&mut into), Ok(12)) && into.starts_with(b"lmnopqrstuvw"));
    Ok(())
}
