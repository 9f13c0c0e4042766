//! Objects in memory: they show what passed, and fail at the calls that their lists name.

mod closed_acceptor;
mod mem_acceptor;
mod mem_input;
mod mem_link;
mod mem_net;
mod mem_port;
mod queue;

pub use closed_acceptor::ClosedAcceptor;
pub use mem_acceptor::MemAcceptor;
pub use mem_link::MemLink;
pub use mem_net::MemNet;
pub use mem_port::MemPort;
