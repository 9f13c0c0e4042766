//! What no clause says: ports that find memory, sockets, and what becomes of the system's answers.

mod acceptors;
mod answers;
mod gates;
mod nets;
mod ports;
mod sockets;
