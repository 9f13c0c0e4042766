//! What the controller sends to drive a frame of its own, which speaks SW-P-08 over a line that loses messages and keeps their
//! order. One message is outstanding at a time, it is sent again until it is answered, and a destination counts as settled
//! only when the frame has said so. All memory is taken when a driver is made.
#![tactic(auto)]

mod crosspoint;
mod driver;
mod event;
mod laws;
mod level;
mod progress;

pub use driver::Driver;
pub use event::DriverEvent;
pub use laws::{
    answers_are_exact, quiet_is_done, settled_is_had, turns_are_steps, turns_settle_all,
};
