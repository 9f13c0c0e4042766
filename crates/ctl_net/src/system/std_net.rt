//! The adapter over the sockets of the system.

ghost use Rattle.std.specs.Prelude.{◌≡◌, ◌≤◌, None, IfOk, length};

use crate::{Address, Net, Opening, TcpAcceptor, UdpPort};
use ctl_io::{FaultCount, call_again};
use std::alloc::Global;
use std::io::{self, ErrorKind};
use std::net::{self, Ipv4Addr, Ipv6Addr, SocketAddr, TcpListener, ToSocketAddrs, UdpSocket};
use std::time::{Clock, Duration};

/// So many bytes of answers are kept until they are sent as one.
const ROOM: usize = 65_536;

/// The sockets of a runtime. It shows no openings, and keeps nothing of what is given back. It takes memory for each
/// acceptor, and where there is none the acceptor's links send all at once.
#[derive(Drop)]
pub struct StdNet<R> {
    rt: R,
    alloc: Global,
    acceptors_out: u64,
    ports_out: u64,
    open_faults: FaultCount,
    close_faults: FaultCount,
}

impl<R: net::Net> StdNet<R> {
    /// Nothing was handed out and nothing has failed.
    pub fn new(alloc: Global, rt: R) -> StdNet<R>
        ensures acceptors { result.acceptors_out ≡ 0 }
        ensures ports { result.ports_out ≡ 0 }
        ensures open_faults { result.open_faults ≡ 0 }
        ensures close_faults { result.close_faults ≡ 0 }
    {
        StdNet {
            rt,
            alloc,
            acceptors_out: 0,
            ports_out: 0,
            open_faults: FaultCount::new(),
            close_faults: FaultCount::new(),
        }
    }

    /// How often an opening was refused. The count stands still at its type's end.
    pub fn open_faults(&self) -> u64
        ensures { result ≡ self.now.open_faults }
    {
        self.open_faults.count()
    }

    /// How often an object with faults was given back. The count stands still at its type's end.
    pub fn close_faults(&self) -> u64
        ensures { result ≡ self.now.close_faults }
    {
        self.close_faults.count()
    }
}

impl<R: net::Net + Clock + Clone + Drop + Send> Net for StdNet<R>
where
    R::Listener: Send,
    R::Stream: Send,
{
    ghost use Rattle.ctl_io.specs.Custody.{only_out};

    type A = TcpAcceptor<R::Listener>;

    type P = UdpPort<R>;

    ghost shows = { λ n. record {
      openings = None;
      acceptors = only_out n.acceptors_out;
      ports = only_out n.ports_out;
      open_faults = n.open_faults;
      close_faults = n.close_faults;
    } };

    ghost sessions_for = { λ _ sessions. sessions };

    fn acceptor(
        &mut self,
        panel: u32,
        address: &str,
        port: u16,
        sessions: u32,
        idle_ms: u32,
    ) -> Option<TcpAcceptor<R::Listener>> {
        if self.acceptors_out == u64::MAX {
            self.open_faults.raise();
            return None;
        }
        match call_again(|| TcpListener::bind(&self.rt, (address, port))) {
            Ok(listener) => {
                self.acceptors_out += 1;
                let timeout = Duration::from_millis(u64::from(idle_ms));
                let opening = Opening::Acceptor {
                    panel,
                    address: Address::of(address),
                    port,
                    sessions,
                    idle_ms,
                };
                let room = match Vec::with_capacity(self.alloc, ROOM) {
                    Ok(room) => room,
                    Err(_) => Vec::new(self.alloc),
                };
                let acceptor = TcpAcceptor::new(listener, sessions, timeout, room, Some(opening));
                Some(acceptor)
            }
            Err(_) => {
                self.open_faults.raise();
                None
            }
        }
    }

    fn port(&mut self, address: &str) -> Option<UdpPort<R>> {
        if self.ports_out == u64::MAX {
            self.open_faults.raise();
            return None;
        }
        match connected(&self.rt, address) {
            Ok(port) => {
                self.ports_out += 1;
                Some(port)
            }
            Err(_) => {
                self.open_faults.raise();
                None
            }
        }
    }

    fn close_acceptor(&mut self, _panel: u32, acceptor: TcpAcceptor<R::Listener>) {
        self.acceptors_out -= 1;
        if acceptor.next_faults() > 0 || acceptor.done_faults() > 0 {
            self.close_faults.raise();
        }
    }

    fn close_port(&mut self, port: UdpPort<R>) {
        self.ports_out -= 1;
        if port.faults() > 0 {
            self.close_faults.raise();
        }
    }
}

// The port to the first of an address's hosts that the system takes as its peer, over a socket of the same family.
fn connected<R: net::Net + Clock + Clone + Drop>(rt: &R, address: &str) -> io::Result<UdpPort<R>>
    requires { length address.now ≤ 64 }
    ensures opening { IfOk result (λ port. port.opening ≡ Some (Opening.Display address.now)) }
    ensures faults { IfOk result (λ port. port.faults ≡ 0) }
{
    let mut last = io::Error::from(ErrorKind::AddrNotAvailable);
    for peer in address.to_socket_addrs(rt)? {
        match socket_to(rt, peer) {
            Ok(socket) => {
                let opening = Opening::Display {
                    address: Address::of(address),
                };
                return Ok(UdpPort::new(rt.clone()?, socket, Some(opening)));
            }
            Err(error) => last = error,
        }
    }
    Err(last)
}

// A socket with this peer, which may be all hosts of a network. Where the system can't be asked for that, it is no fault.
fn socket_to<R: net::Net>(rt: &R, peer: SocketAddr) -> io::Result<UdpSocket> {
    let own = match peer {
        SocketAddr::V4(_) => SocketAddr::from((Ipv4Addr::UNSPECIFIED, 0)),
        SocketAddr::V6(_) => SocketAddr::from((Ipv6Addr::UNSPECIFIED, 0)),
    };
    let socket = call_again(|| UdpSocket::bind(rt, own))?;
    let _ = socket.set_broadcast(true);
    call_again(|| socket.connect(peer))?;
    Ok(socket)
}
