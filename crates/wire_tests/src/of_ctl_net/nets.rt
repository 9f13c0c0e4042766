//! Nets in memory, and over the sockets of this machine.

ghost use Rattle.std.specs.Prelude.{◌≤◌, length};

use ctl_net::{
    Acceptor, DisplayPort, MemAcceptor, MemNet, MemPort, Net, Next, Opening, Sent, StdNet,
};
use std::alloc::{AllocError, Global};
use std::io;
use std::net::{TcpListener, TcpStream, UdpSocket};
use std::test::Fail;

// Opens an acceptor of panel 4, of which no link is asked for, and the port to a display, to which a packet is sent, and
// gives both back. It says whether the acceptor was opened, and what the send answered.
fn visit<N: Net>(net: &mut N, port: u16, display: &str) -> (bool, Option<Sent>)
    requires { length display.now ≤ 64 }
{
    let acceptor = net.acceptor(4, "127.0.0.1", port, 2, 20);
    let opened = acceptor.is_some();
    let mut answer = None;
    if let Some(mut port) = net.port(display) {
        answer = Some(port.send(b"ab"));
        net.close_port(port);
    }
    if let Some(acceptor) = acceptor {
        net.close_acceptor(4, acceptor);
    }
    (opened, answer)
}

// Gives the next link back at once; whether there was one.
fn passes_one<A: Acceptor>(acceptor: &mut A) -> bool {
    match acceptor.next() {
        Next::One(link) => {
            acceptor.done(link);
            true
        }
        Next::NoMore | Next::Failed => false,
    }
}

// A net with one acceptor and one port, of which the second opening fails.
fn small_net(alloc: Global) -> Result<MemNet, AllocError> {
    let acceptor = MemAcceptor::new(alloc, Vec::new(alloc), 0, Vec::new(alloc))?;
    let port = MemPort::new(alloc, 2, Vec::new(alloc))?;
    MemNet::new(
        alloc,
        vec![in alloc; acceptor]?,
        vec![in alloc; port]?,
        2,
        vec![in alloc; 1]?,
    )
}

#[test]
fn a_net_in_memory_tells_what_it_opened(rt: HostRuntime) -> Result<(), Fail> {
    let mut net = small_net(rt.alloc())?;
    let first = visit(&mut net, 8904, "here");
    let second = visit(&mut net, 8905, "there");
    let third = visit(&mut net, 8906, "there");
    assert!(rt;
        first == (true, None) && second == (false, Some(Sent::Done)) && third == (false, None)
    );
    assert!(rt; are_as_opened(net.openings()) && are_back(&net));
    assert!(rt; net.open_faults() == 4 && net.close_faults() == 0);
    Ok(())
}

// The openings that weren't refused: the first visit's acceptor, and the second one's port.
fn are_as_opened(openings: &[Opening]) -> bool {
    matches!(
        openings,
        [
            Opening::Acceptor { panel: 4, port: 8904, sessions: 2, idle_ms: 20, .. },
            Opening::Display { address },
        ] if address.as_bytes() == b"there".as_slice()
    )
}

// Whether both came back, the port with what it was sent.
fn are_back(net: &MemNet) -> bool {
    matches!(net.acceptors_back(), [closed] if closed.panel == 4)
        && matches!(net.ports_back(), [port] if port.bytes() == b"ab".as_slice())
}

// A display, to which a packet comes from a net that opens this port too.
fn display_is_sent<N: Net>(rt: &HostRuntime, net: &mut N, free: u16) -> Result<bool, Fail> {
    let display = UdpSocket::bind(rt, "127.0.0.1:0")?;
    let address = display.local_addr()?.to_string(rt.alloc())?;
    let done = (true, Some(Sent::Done));
    let visited = address.len() <= 64 && visit(net, free, &address) == done;
    Ok(visited && matches!(display.recv(&mut [0; 8]), Ok(2)))
}

// A panel's acceptor at this port gives one link, and no other one is opened there meanwhile.
fn one_is_accepted<N: Net>(rt: &HostRuntime, net: &mut N, free: u16) -> bool {
    let Some(mut acceptor) = net.acceptor(4, "127.0.0.1", free, 1, 20) else {
        return false;
    };
    let alone = match net.acceptor(5, "127.0.0.1", free, 1, 20) {
        Some(other) => {
            net.close_acceptor(5, other);
            false
        }
        None => true,
    };
    let panel = TcpStream::connect(rt, ("127.0.0.1", free));
    let first = passes_one(&mut acceptor);
    let second = passes_one(&mut acceptor);
    net.close_acceptor(4, acceptor);
    panel.is_ok() && alone && first && !second
}

// A port that no socket has.
fn free_port(rt: &HostRuntime) -> io::Result<u16> {
    Ok(TcpListener::bind(rt, "127.0.0.1:0")?.local_addr()?.port())
}

#[test]
fn a_net_over_sockets_opens_each_port_once(rt: HostRuntime) -> Result<(), Fail> {
    let free = free_port(&rt)?;
    let mut net = StdNet::new(rt.alloc(), rt.clone()?);
    assert!(rt; display_is_sent(&rt, &mut net, free)?);
    assert!(rt; one_is_accepted(&rt, &mut net, free));
    assert!(rt; net.open_faults() == 1 && net.close_faults() == 0);
    Ok(())
}
