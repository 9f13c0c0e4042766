//! The outside that is reached over a network, as traits: nets, which open acceptors of links to panels and the ports that
//! display packets go to, and the gates of sessions. Each comes in memory, where it shows what passed and fails at listed calls, and as a thin
//! adapter over sockets.
#![tactic(auto)]

mod acceptor;
mod gate;
mod link;
mod link_event;
mod memory;
mod net;
mod opening;
mod port;
mod system;

pub use acceptor::{Acceptor, Next};
pub use gate::{Gate, GatePoint, OpenGate};
pub use link::{Link, LinkRead};
pub use link_event::LinkEvent;
pub use memory::{ClosedAcceptor, MemAcceptor, MemLink, MemNet, MemPort};
pub use net::Net;
pub use opening::{Address, MAX_ADDRESS, Opening};
pub use port::{DisplayPort, Sent};
pub use system::{StdNet, TcpAcceptor, TcpLink, UdpPort};
