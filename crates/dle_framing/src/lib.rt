//! Frames of the SW-P-08 General Remote Control Protocol.
//! `encode_frame` spells DATA as a frame, and a `Framer` gives the items of a stream of bytes in whatever pieces it comes.
//! What they promise rests on `specs/Frame.antt`, the one spelling, and `specs/Items.antt`, the items of a text, whose
//! laws are the functions of `laws`.
#![tactic(auto)]

mod body;
mod control;
mod encode;
mod framer;
mod front;
mod item;
mod laws;
// kit: `mod feed_all` is refused beside the function of this name.
mod pieces;
mod place;
mod plain;
mod start;

pub use control::{
    ACK, DLE, ETX, MAX_BODY, MAX_DATA, MAX_FRAME, MIN_BODY, NAK, STX, append_ack, append_nak,
};
pub use encode::{encode_frame, frame_len};
pub use framer::Framer;
pub use item::Item;
pub use laws::{frame_room, one_frame, reads_answers, reads_by_start, reads_frame, reads_on};
pub use pieces::feed_all;
pub use plain::read_items;
