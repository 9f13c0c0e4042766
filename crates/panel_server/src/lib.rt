//! The workers that share a plant: what they ask of it by their seats of its lock, what they trace, and what they send.
//! `drive_displays` keeps the displays up, and `serve_panel` serves the links of a panel. What they promise rests on
//! `specs/Driven.antt` and `specs/PanelServed.antt`.
#![tactic(auto)]

mod displays;
mod give_back;
mod leave;
mod open;
mod panel;
mod plant;
mod poll;
mod poll_room;
mod room;
mod shares;
mod sums;
mod worker;
mod workers;

pub use displays::{DriverEnd, drive_displays};
pub use panel::{PanelDone, serve_panel};
pub use plant::{PlantDone, ServeFault, serve};
pub use shares::traces_share_history;
