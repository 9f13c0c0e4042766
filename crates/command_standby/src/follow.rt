//! The lines of traces come to a standby.

ghost use Rattle.std.specs.Prelude.{◌≡◌, ◌+◌, ◌<◌, ◌≤◌, ◌^◌, ◌++◌, ◌∷◌, [], List};
ghost use Rattle.std.specs.Prelude.{IfErr, IfOk, IfSome, Some};
ghost use Rattle.std.specs.Bool.{OnFalse, OnTrue};
ghost use Rattle.line_text.specs.Lines.{lines};
ghost use Rattle.plant_core.specs.State.{FitsPlant};
ghost use Rattle.standby.specs.Standby.{Data};
ghost use Rattle.standby.specs.Arrivals.{Arrival};
ghost use Rattle.standby.specs.Table.{Takes};
ghost use Rattle.standby.specs.declared.took.Took.TheVariants.{Differs};
ghost use Rattle.command_standby.specs.Taking.{IsFirstRefused, TakesOne, TellsArrival, none_passed};
ghost use Rattle.command_standby.specs.FollowInside.{Came, CameSoFar, arrival_of};

use line_text::split_line;
use plant_config::Plant;
use plant_core::Request;
use standby::{Standby, Took};
use trace_lines::trace_request;

// Each position is below this number.
const POSITION_LIMIT: u64 = 1 << 62;

/// How many requests came that were applied before, and how many that were beyond the window.
#[derive(Clone, Copy, Debug, PartialEq, Eq)]
pub(crate) struct Passed {
    pub(crate) old_count: u64,
    pub(crate) beyond_count: u64,
}

// The lines come to a standby one after another, each as it is read, and are counted, up to the first that differs from what
// is kept. Answers its position, or before all else the number of the first line, counted from 1, that tells nothing that may
// come. A text has at most as many lines as bytes.
pub(crate) fn take_lines(
    plant: &Plant,
    text: &[u8],
    standby: &mut Standby,
    passed: &mut Passed,
) -> Result<Option<u64>, u64>
    requires plant { standby.old.state.plant ≡ plant.now }
    requires passed { passed.old ≡ none_passed }
    ensures came { IfOk result (λ differing. Came plant.now (lines text.now) standby.old differing
        standby.new passed.new) }
    ensures refused { IfErr result (IsFirstRefused plant.now (lines text.now)) }
    ensures plant { standby.new.state.plant ≡ plant.now }
{
    let mut rest = text;
    let mut differing = None;
    for count in 0..text.len() as u64 {
        if rest.is_empty() {
            return Ok(differing);
        }
        let (line, after) = split_line(rest);
        let Some((position, request)) = arrival(plant, line) else {
            return Err(count + 1);
        };
        differing = take_next(standby, passed, differing, position, &request);
        rest = after;
    }
    Ok(differing)
}

// A request comes, unless one before it differs. Answers the position of the first that does.
fn take_next(
    standby: &mut Standby,
    passed: &mut Passed,
    differing: Option<u64>,
    position: u64,
    request: &Request,
) -> Option<u64>
    requires below { position < 2 ^ 62 }
    requires fits { FitsPlant standby.old.state.plant request.now }
    requires few_old { passed.old.old_count + 1 < 2 ^ 64 }
    requires few_beyond { passed.old.beyond_count + 1 < 2 ^ 64 }
    ensures came { (first : Data) (arrivals : List Arrival)
        → CameSoFar first arrivals differing standby.old passed.old
        → CameSoFar first (arrivals ++ arrival_of position request.now ∷ []) result
        standby.new passed.new }
    ensures plant { standby.new.state.plant ≡ standby.old.state.plant }
    ensures old { passed.new.old_count ≤ passed.old.old_count + 1 }
    ensures beyond { passed.new.beyond_count ≤ passed.old.beyond_count + 1 }
{
    if differing.is_some() {
        return differing;
    }
    if !take_one(standby, passed, position, request) {
        return Some(position);
    }
    None
}

// What a line tells that may come to a standby.
fn arrival(plant: &Plant, line: &[u8]) -> Option<(u64, Request)>
    ensures found { IfSome result
        (λ found. TellsArrival plant.now line.now (arrival_of found.0 found.1)) }
    ensures only { (arrival : Arrival) → TellsArrival plant.now line.now arrival
        → result ≡ Some (arrival.position, arrival.request) }
{
    let Some((position, request)) = trace_request(plant, line) else {
        return None;
    };
    if position < POSITION_LIMIT {
        Some((position, request))
    } else {
        None
    }
}

// A request comes, and is counted where it is old or beyond the window. Answers whether no other one is kept for its position.
fn take_one(standby: &mut Standby, passed: &mut Passed, position: u64, request: &Request) -> bool
    requires below { position < 2 ^ 62 }
    requires fits { FitsPlant standby.old.state.plant request.now }
    requires few_old { passed.old.old_count + 1 < 2 ^ 64 }
    requires few_beyond { passed.old.beyond_count + 1 < 2 ^ 64 }
    ensures taken { OnTrue result
        (TakesOne standby.old passed.old (arrival_of position request.now) standby.new passed.new) }
    ensures differs { OnFalse result (Takes standby.old position request.now Differs standby.new) }
    ensures plant { standby.new.state.plant ≡ standby.old.state.plant }
    ensures old { passed.new.old_count ≤ passed.old.old_count + 1 }
    ensures beyond { passed.new.beyond_count ≤ passed.old.beyond_count + 1 }
{
    match standby.take(position, request) {
        Took::Old => passed.old_count += 1,
        Took::Beyond(_) => passed.beyond_count += 1,
        Took::Differs => return false,
        Took::Kept | Took::Applied(_) => {}
    }
    true
}
