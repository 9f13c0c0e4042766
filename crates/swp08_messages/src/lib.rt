//! Messages of the SW-P-08 General Remote Control Protocol and of this project's profile: what the DATA bytes of a frame
//! say, both ways. Each message has one canonical DATA, and what is read is what it spells. The crate knows nothing of
//! frames and of plants.
#![tactic(auto)]

mod behind;
mod crosspoints;
mod dump;
mod extended;
mod fault;
mod field;
mod go_status;
mod laws;
mod message;
mod message_row;
mod names;
mod point;
mod protects;
mod row;
mod salvos;
mod validity;
mod view;

pub use dump::write_dump;
pub use fault::ReadFault;
pub use go_status::GoStatus;
pub use laws::{one_message, one_page, one_reading, text_bytes};
pub use message::{Message, MessageKind};
pub use point::{EXT_PARKED, PARKED, Point};
pub use validity::Validity;
