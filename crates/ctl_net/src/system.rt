//! The adapters over sockets: they show nothing, and count each error but that of an interrupted call, which is made
//! again.

mod link_answer;
mod std_net;
mod tcp_acceptor;
mod tcp_link;
mod udp_port;

pub use std_net::StdNet;
pub use tcp_acceptor::TcpAcceptor;
pub use tcp_link::TcpLink;
pub use udp_port::UdpPort;
