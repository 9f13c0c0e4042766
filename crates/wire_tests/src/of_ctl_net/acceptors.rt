//! Acceptors in memory, and over a listener of this machine.

ghost use Rattle.std.specs.Prelude.{IfOk};
ghost use Rattle.ctl_net.specs.MemLink.{IsNewLink};

use ctl_io::Bytes;
use ctl_net::{Acceptor, Link, LinkEvent, LinkRead, MemAcceptor, MemLink, Next, TcpAcceptor};
use std::alloc::{AllocError, Global};
use std::net::{TcpListener, TcpStream};
use std::process::Abort;
use std::test::Fail;
use std::time::Duration;

// What the next link gives first, where there is one; the link is given back.
fn first_read<A: Acceptor>(acceptor: &mut A) -> Option<LinkRead> {
    match acceptor.next() {
        Next::One(mut link) => {
            let read = link.read(&mut [0; 4]);
            acceptor.done(link);
            Some(read)
        }
        Next::NoMore | Next::Failed => None,
    }
}

fn link_of(alloc: Global, bytes: &[u8]) -> Result<MemLink, AllocError>
    ensures { IfOk result IsNewLink }
{
    let piece = LinkEvent::Piece(Bytes::of(bytes.to_vec(alloc)?));
    MemLink::new(
        alloc,
        vec![in alloc; piece]?,
        0,
        Vec::new(alloc),
        Vec::new(alloc),
    )
}

// An acceptor with two links, of which the second asking fails.
fn two_links(alloc: Global) -> Result<MemAcceptor, AllocError> {
    let links = vec![in alloc; link_of(alloc, b"a")?, link_of(alloc, b"bc")?]?;
    MemAcceptor::new(alloc, links, 2, vec![in alloc; 1]?)
}

// What the next links give first is this.
fn give<A: Acceptor>(rt: &impl Abort, acceptor: &mut A, reads: &[Option<LinkRead>]) {
    for read in reads {
        assert!(rt; first_read(acceptor) == *read);
    }
}

#[test]
fn links_are_handed_out_in_their_order(rt: HostRuntime) -> Result<(), Fail> {
    let mut acceptor = two_links(rt.alloc())?;
    let reads = [Some(LinkRead::Got(1)), None, Some(LinkRead::Got(2)), None];
    give(&rt, &mut acceptor, &reads);
    assert!(rt; acceptor.back().len() == 2);
    Ok(())
}

#[test]
fn a_listener_serves_so_many_sessions(rt: HostRuntime) -> Result<(), Fail> {
    let listener = TcpListener::bind(&rt, "127.0.0.1:0")?;
    let at = listener.local_addr()?;
    let timeout = Duration::from_millis(20);
    let mut acceptor = TcpAcceptor::new(listener, 1, timeout, Vec::new(rt.alloc()), None);
    let panel = TcpStream::connect(&rt, at)?;
    give(&rt, &mut acceptor, &[Some(LinkRead::Idle), None]);
    drop(panel);
    Ok(())
}
