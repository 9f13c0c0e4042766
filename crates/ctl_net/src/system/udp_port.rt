//! The adapter over a UDP socket.

ghost use Rattle.std.specs.Prelude.{◌≡◌};

use crate::{DisplayPort, Opening, Sent};
use ctl_io::{FaultCount, call_again};
use std::net::UdpSocket;
use std::thread;
use std::time::{Clock, Duration};

// How long a pause is, in milliseconds.
const PAUSE: u64 = 20;

/// A UDP socket with its one peer, to which each packet goes as one datagram. It shows no packets. A packet of which a
/// part is sent has failed.
#[derive(Drop)]
pub struct UdpPort<R> {
    // The opening that made it, if a net opened it.
    opening: Option<Opening>,
    rt: R,
    socket: UdpSocket,
    faults: FaultCount,
}

impl<R: Clock> UdpPort<R> {
    /// A port over a socket that was connected to its peer. It shows this opening.
    pub fn new(rt: R, socket: UdpSocket, opening: Option<Opening>) -> UdpPort<R>
        ensures opening { result.opening ≡ opening }
        ensures faults { result.faults ≡ 0 }
    {
        UdpPort {
            opening,
            rt,
            socket,
            faults: FaultCount::new(),
        }
    }

    /// How often a send failed. The count stands still at its type's end.
    pub fn faults(&self) -> u64
        ensures { result ≡ self.now.faults }
    {
        self.faults.count()
    }
}

impl<R: Clock + Send> DisplayPort for UdpPort<R> {
    ghost use Rattle.ctl_net.specs.Port.{IsSomePacket};

    ghost opening = { λ p. p.opening };

    ghost takes = { IsSomePacket };

    // It shows no packets.
    ghost was_sent = { λ _ _. Unit {0} };

    ghost faults = { λ p. p.faults };

    fn send(&mut self, packet: &[u8]) -> Sent {
        match call_again(|| self.socket.send(packet)) {
            Ok(n) if n == packet.len() => Sent::Done,
            Ok(_) | Err(_) => {
                self.faults.raise();
                Sent::Failed
            }
        }
    }

    fn pause(&mut self) {
        thread::sleep(&self.rt, Duration::from_millis(PAUSE));
    }
}
