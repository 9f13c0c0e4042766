//! The worker of the displays.

ghost use Rattle.std.specs.Prelude.{◌≡◌, ℕ, ◌%◌, ◌<◌, List, length, slice_index};
ghost use Rattle.ctl_net.specs.Net.{TakesAll};
ghost use Rattle.panel_session.specs.Served.{trace_shows};
ghost use Rattle.panel_server.specs.Driven.{Driven, has_refresh};
ghost use Rattle.panel_server.specs.DrivenInside.{HasRoomFor};
ghost use Rattle.panel_server.specs.Seats.{IsSeatOf};

use crate::poll::{Polled, poll_screen};
use crate::poll_room::PollRoom;
use ctl_io::Sink;
use ctl_net::DisplayPort;
use history_lock::{HistoryLock, Seat};
use plant_config::Plant;
use plant_core::PlantState;
use std::alloc::Global;
use std::sync::Wait;

/// Why the worker of the displays ended.
#[derive(Clone, Copy, Debug, PartialEq, Eq)]
pub enum DriverEnd {
    /// All panels have left, and no display differs from what it shows.
    Finished {
        /// How many packets were sent.
        sent: u64,
        /// How many sends failed.
        failed: u64,
    },
    /// A write of the trace failed.
    TraceFault,
    /// The history has no place for an entry.
    Full,
    /// There was no memory to begin with.
    NoMemory,
}

/// Keeps the displays of a plant up. It polls the screens in rounds, each screen once, in ascending order. It writes the
/// trace's line of each poll and then sends one packet, if the poll was answered with lamps. After a round in which none was
/// it pauses. It ends where a poll is answered that all is finished; of a plant without screens it ends at once. The polls of
/// the first round have a refresh, and so have those of each round whose number is a multiple of the plant's
/// `refresh_every`, unless that is 0. All memory is taken before the first poll.
pub fn drive_displays<W: Wait, P: DisplayPort, K: Sink>(
    rt: &W,
    alloc: Global,
    plant: &Plant,
    lock: &HistoryLock<PlantState>,
    seat: &mut Seat<PlantState>,
    port: &mut P,
    trace: &mut K,
) -> DriverEnd
    requires seat { IsSeatOf plant.now lock.now seat.old }
    requires takes { TakesAll P.takes }
    ensures driven { Driven P.was_sent P.faults plant.now result seat.old seat.new port.old
        port.new (trace_shows K.written K.faults trace.old)
        (trace_shows K.written K.faults trace.new) }
    ensures opening { P.opening port.new ≡ P.opening port.old }
    ensures trace_name { K.name trace.new ≡ K.name trace.old }
{
    match PollRoom::new(alloc, plant) {
        Ok(mut room) => drive(rt, plant, lock, seat, port, trace, &mut room),
        Err(_) => DriverEnd::NoMemory,
    }
}

// The same, in room that was taken before.
fn drive<W: Wait, P: DisplayPort, K: Sink>(
    rt: &W,
    plant: &Plant,
    lock: &HistoryLock<PlantState>,
    seat: &mut Seat<PlantState>,
    port: &mut P,
    trace: &mut K,
    room: &mut PollRoom,
) -> DriverEnd
    requires seat { IsSeatOf plant.now lock.now seat.old }
    requires takes { TakesAll P.takes }
    requires room { HasRoomFor plant.now room.old }
    ensures driven { Driven P.was_sent P.faults plant.now result seat.old seat.new port.old
        port.new (trace_shows K.written K.faults trace.old)
        (trace_shows K.written K.faults trace.new) }
    ensures opening { P.opening port.new ≡ P.opening port.old }
    ensures trace_name { K.name trace.new ≡ K.name trace.old }
{
    let screens = plant.screens();
    let every = u64::from(plant.server().refresh_every);
    let count = screens.len() as u64;
    let (mut sent, mut failed) = (0, 0);
    if count == 0 {
        return DriverEnd::Finished { sent, failed };
    }
    let mut polls = 0;
    let mut lit = false;
    loop {
        let screen = screen_at(screens, polls);
        let refresh = has_refresh(every, polls / count);
        let polled = match poll_screen(rt, plant, lock, seat, port, trace, room, screen, refresh) {
            Ok(polled) => polled,
            Err(end) => return end,
        };
        if polled.is_last() {
            return DriverEnd::Finished { sent, failed };
        }
        sent += polled.sent();
        failed += polled.lost();
        lit = lit || !matches!(polled, Polled::Quiet);
        polls += 1;
        if polls % count == 0 {
            pause_unless(lit, port);
            lit = false;
        }
    }
}

// The screen of a poll, counted from 0, of screens that are polled in rounds.
fn screen_at(screens: &[u16], polls: u64) -> u16
    requires { 0 < length screens.now }
    ensures { result ≡ slice_index screens.now (polls % length screens.now) }
{
    screens[(polls % screens.len() as u64) as usize]
}

// Whether the polls of a round have a refresh, with one in each round whose number is a multiple of `every`, if that isn't 0.
fn has_refresh(every: u64, round: u64) -> bool
    ensures { result ≡ has_refresh every round }
{
    round == 0 || every != 0 && round % every == 0
}

// Pauses after a round in which no poll was answered with lamps.
fn pause_unless<P: DisplayPort>(lit: bool, port: &mut P)
    ensures packets { (packets : List (List ℕ)) → P.was_sent port.old packets
        → P.was_sent port.new packets }
    ensures opening { P.opening port.new ≡ P.opening port.old }
    ensures count { P.faults port.new ≡ P.faults port.old }
{
    if !lit {
        port.pause();
    }
}
