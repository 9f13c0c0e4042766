//! Sessions against a tiny machine.

ghost use Rattle.std.specs.Prelude.{◌≡◌, ◌≤◌, IfOk, length};

mod board;
mod days;
mod desk;
mod dumps;
mod nasty;
mod serving;
mod streams;
mod traces;

use crate::examples::of_panel_session::Given;
use board::Board;
use days::{FRAMES, Line, NOTICES, REPEATS};
use desk::Desk;
use plant_config::Plant;
use plant_names::Names;
use std::alloc::{AllocError, Global};
use std::process::Abort;
use std::test::Fail;

// The bytes of hexadecimal with spaces.
pub(crate) fn bytes_of(alloc: Global, text: &str) -> Result<Vec<u8>, Fail> {
    let mut digits = Vec::new(alloc);
    for digit in text.as_bytes() {
        if *digit != b' ' {
            digits.push(*digit)?;
        }
    }
    Ok(hex::decode(alloc, &digits)?)
}

// Whether the session of a line's panel is sent what the line says.
fn is_sent(
    alloc: Global,
    desk: &mut Desk<'_>,
    board: &mut Board,
    line: &Line,
) -> Result<bool, Fail> {
    let (_, told, wanted) = line;
    let mut sent = Given::new(alloc);
    desk.turn(board, &bytes_of(alloc, told)?, &mut sent);
    Ok(sent.is(&bytes_of(alloc, wanted)?))
}

// The sessions of two panels are sent what lines say, which are worked in one turn each on a new board.
fn are_sent(
    rt: &impl Abort,
    alloc: Global,
    first: &mut Desk<'_>,
    second: &mut Desk<'_>,
    lines: &[Line],
) -> Result<(), Fail> {
    let mut board = Board::new();
    for line in lines {
        let as_told = if line.0 == 0 {
            is_sent(alloc, first, &mut board, line)?
        } else {
            is_sent(alloc, second, &mut board, line)?
        };
        assert!(rt; as_told, "of {} the line {}", line.0, line.1);
    }
    Ok(())
}

// The bench plant, which has two panels, and its names.
#[tactic(auto, unfolding(plant_config::specs::Bench::bench))]
fn bench(alloc: Global) -> Result<(Plant, Names), AllocError>
    ensures panels { IfOk result (λ made. 2 ≤ length made.0.panels) }
    ensures names { IfOk result (λ made. made.1 ≡ made.0) }
{
    let plant = Plant::bench(alloc)?;
    let names = Names::new(alloc, &plant)?;
    Ok((plant, names))
}

// The day of these lines on the bench plant.
fn goes_so(rt: &impl Abort, alloc: Global, lines: &[Line]) -> Result<(), Fail> {
    let (plant, names) = bench(alloc)?;
    let mut first = Desk::new(alloc, &plant, &names, 0)?;
    let mut second = Desk::new(alloc, &plant, &names, 1)?;
    are_sent(rt, alloc, &mut first, &mut second, lines)
}

#[test]
fn panels_are_sent_what_they_ask_for(rt: HostRuntime) -> Result<(), Fail> {
    goes_so(&rt, rt.alloc(), FRAMES)?;
    goes_so(&rt, rt.alloc(), REPEATS)?;
    goes_so(&rt, rt.alloc(), NOTICES)
}

// What a new session of the bench plant's first panel goes through.
enum Trial {
    Polls,
    Streams,
    Kinds,
}

fn goes_through(rt: &impl Abort, alloc: Global, trial: &Trial) -> Result<(), AllocError> {
    let (plant, names) = bench(alloc)?;
    let mut desk = Desk::new(alloc, &plant, &names, 0)?;
    match trial {
        Trial::Polls => is_polled(rt, alloc, &mut desk),
        Trial::Streams => streams::are_all_answered(rt, alloc, &mut desk),
        Trial::Kinds => nasty::are_all_answered(rt, alloc, &mut desk),
    }
}

// That destination 5 is parked.
const NOTICE: &[u8] = b"\x10\x02\x04\x00\x07\x05\x7F\x05\x6C\x10\x03";

// A panel that always has a notice is told 32 in a turn.
fn is_polled(rt: &impl Abort, alloc: Global, desk: &mut Desk<'_>) -> Result<(), AllocError> {
    let told = streams::bytes_of(alloc, [(NOTICE, 32)].as_slice())?;
    let mut board = Board::new();
    board.always = true;
    let mut sent = Given::new(alloc);
    desk.turn(&mut board, &[], &mut sent);
    assert!(rt; sent.is(&told));
    Ok(())
}

#[test]
fn a_turn_polls_at_most_32_times(rt: HostRuntime) -> Result<(), Fail> {
    Ok(goes_through(&rt, rt.alloc(), &Trial::Polls)?)
}

#[test]
fn streams_are_answered_however_they_are_cut(rt: HostRuntime) -> Result<(), Fail> {
    Ok(goes_through(&rt, rt.alloc(), &Trial::Streams)?)
}

#[test]
fn no_stream_brings_a_session_out_of_step(rt: HostRuntime) -> Result<(), Fail> {
    Ok(goes_through(&rt, rt.alloc(), &Trial::Kinds)?)
}
