//! The room that polls are worked in.

ghost use Rattle.std.specs.Prelude.{◌≡◌, IfOk};
ghost use Rattle.panel_server.specs.DrivenInside.{HasRoomFor};

use history_lock::OutBox;
use panel_session::TraceLines;
use plant_config::Plant;
use plant_core::{Answer, PlantState};
use std::alloc::{AllocError, Global};

// The most bytes of a line of a trace.
const MAX_LINE: usize = 65_537;

// The most bytes of the packet of a poll.
const MAX_PACKET: usize = 1158;

// What polls are worked in. All memory is taken by `new`.
#[derive(Drop)]
pub(crate) struct PollRoom {
    pub(crate) answers: OutBox<Answer>,
    pub(crate) lines: TraceLines,
    pub(crate) line: Vec<u8>,
    pub(crate) packet: Vec<u8>,
}

impl PollRoom {
    pub(crate) fn new(alloc: Global, plant: &Plant) -> Result<PollRoom, AllocError>
        ensures { IfOk result (HasRoomFor plant.now) }
    {
        // What has most in it is made last: each part is let go where a later one has no memory.
        Ok(PollRoom {
            line: Vec::with_capacity(alloc, MAX_LINE)?,
            packet: Vec::with_capacity(alloc, MAX_PACKET)?,
            lines: TraceLines::new(alloc)?,
            answers: OutBox::new(alloc, PlantState::room_of(plant))?,
        })
    }
}
