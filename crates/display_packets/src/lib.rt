//! The packet by which the displays of a screen are told what a display poll is answered: `display_packet` appends it. What it
//! promises rests on `specs/DisplayPacket.antt`, the packet of a screen and of answers.
#![tactic(auto)]

mod laws;
mod packet;

pub use laws::display_poll_answers_are_lamps;
pub use packet::display_packet;
