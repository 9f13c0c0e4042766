//! Packets of the TSL UMD Protocol V5.0 over a stream of bytes, as displays take them over TCP.
//! `write_stream` spells a packet on a stream, and a `StreamReader` gives the items of a stream in whatever pieces it
//! comes. A `StreamPort` is a display port over a sink, of which any write may fail. What they promise rests on `specs/Stream.antt`, the one spelling, and `specs/Items.antt`, the items of a text.
#![tactic(auto)]

mod control;
mod front;
mod half;
mod item;
mod laws;
mod place;
mod port;
mod reader;
mod write;

pub use control::{DLE, MAX_STREAM, STX};
pub use item::StreamItem;
pub use laws::{reads_by_start, reads_on, reads_rows};
pub use port::{PortRefused, StreamPort};
pub use reader::StreamReader;
pub use write::write_stream;
