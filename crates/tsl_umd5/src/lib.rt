//! Packets of the TSL UMD Protocol V5.0, which give the displays under monitors their texts, lamps and brightness.
//! A packet is written at the end of a buffer, display by display, and each screen with its displays has one text.
//! The reader accepts exactly these texts, and names the first rule that other bytes break; no call takes memory.
#![tactic(auto)]

mod fault;
mod lamp;
mod layout;
mod message;
mod read;
mod shown;
mod write;

pub use fault::TslFault;
pub use lamp::Lamp;
pub use layout::{
    FIRST_PRINTABLE, FLAGS, LAST_PRINTABLE, MAX_BRIGHTNESS, MAX_PACKET, MESSAGE_HEAD, PACKET_HEAD,
    VERSION,
};
pub use read::{Packet, one_text, read_packet};
pub use shown::{Shown, is_text};
pub use write::{add_display, begin_packet};
