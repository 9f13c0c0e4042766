//! Ports in memory, and over a socket of this machine.

ghost use Rattle.std.specs.Prelude.{◌<◌, length};

use ctl_net::{DisplayPort, MemPort, Sent, UdpPort};
use std::io;
use std::net::UdpSocket;
use std::process::Abort;
use std::sync::atomic::{AtomicU64, Ordering};
use std::test::Fail;
use std::time::{Clock, Duration};

// Packets, and what is answered to each. The second send fails, and the last packet has no room.
const PACKETS: &[(&[u8], Sent)] = &[
    (b"ab", Sent::Done),
    (b"c", Sent::Failed),
    (b"def", Sent::Done),
    (b"g", Sent::Failed),
];

fn are_taken(rt: &impl Abort, port: &mut MemPort) {
    for (packet, sent) in PACKETS {
        port.pause();
        assert!(rt; port.take(packet) == *sent);
    }
}

#[test]
fn a_port_in_memory_keeps_its_packets(rt: HostRuntime) -> Result<(), Fail> {
    let failing = vec![in rt.alloc(); 1]?;
    let mut port = MemPort::new(rt.alloc(), 5, failing)?;
    are_taken(&rt, &mut port);
    assert!(rt; port.bytes() == b"abdef".as_slice() && port.lengths() == [2, 3].as_slice());
    assert!(rt; port.faults() == 2);
    Ok(())
}

// Two sockets, of which the second sends to the first.
fn connected(rt: &HostRuntime) -> io::Result<(UdpSocket, UdpSocket)> {
    let display = UdpSocket::bind(rt, "127.0.0.1:0")?;
    let socket = UdpSocket::bind(rt, "127.0.0.1:0")?;
    socket.connect(display.local_addr()?)?;
    Ok((display, socket))
}

// Whether a packet comes to a display as it is, and alone.
fn comes<R: Clock + Send>(port: &mut UdpPort<R>, display: &UdpSocket, packet: &[u8]) -> bool
    requires { 0 < length packet.now }
{
    let mut into = [0; 8];
    let sent = port.send(packet) == Sent::Done;
    let came = matches!(display.recv(&mut into), Ok(n) if n == packet.len());
    port.pause();
    sent && came && into.starts_with(packet)
}

// A clock by which nobody sleeps, and which counts the milliseconds that somebody was to.
#[derive(Drop)]
struct Unslept {
    millis: AtomicU64,
}

impl Clock for Unslept {
    fn monotonic(&self) -> io::Result<Duration> {
        Ok(Duration::from_millis(0))
    }

    fn since_1970(&self) -> io::Result<Duration> {
        Ok(Duration::from_millis(0))
    }

    fn sleep(&self, duration: Duration) {
        let millis = u64::try_from(duration.as_millis()).unwrap_or(u64::MAX);
        self.millis.fetch_add(millis, Ordering::SeqCst);
    }
}

// Each packet goes as one datagram, and the pause behind each is of 20 milliseconds.
#[test]
fn a_packet_goes_as_one_datagram(rt: HostRuntime) -> Result<(), Fail> {
    let (display, socket) = connected(&rt)?;
    let clock = Unslept {
        millis: AtomicU64::new(0),
    };
    let mut port = UdpPort::new(&clock, socket, None);
    assert!(rt; comes(&mut port, &display, b"abc") && comes(&mut port, &display, b"de"));
    assert!(rt; port.faults() == 0 && clock.millis.load(Ordering::SeqCst) == 40);
    Ok(())
}
