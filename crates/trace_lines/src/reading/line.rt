//! What a line of a trace tells.

ghost use Rattle.std.specs.Prelude.{◌≡◌, ℕ, Some, IfSome};
ghost use Rattle.std.specs.Option.{IsSomeAnd};
ghost use Rattle.plant_core.specs.declared.request.Request.{Request};
ghost use Rattle.trace_lines.specs.Trace.{TracedEntry, LineTells, TellsRequest};
ghost use Rattle.trace_lines.specs.Trace.{entry_of};

use crate::reading::field::{behind, read_number};
use crate::reading::hexadecimal::is_reply;
use crate::reading::request::read_request;
use line_text::MAX_LINE;
use plant_config::Plant;
use plant_core::Request;

/// An entry as a line tells it.
#[derive(Clone, Copy, Debug, PartialEq, Eq)]
pub struct Traced<'t> {
    /// Where it stands in the history, from 0 on.
    pub position: u64,
    /// What was asked.
    pub request: Request,
    /// The text of what was answered, a piece of the line.
    pub reply: &'t [u8],
}

/// The position and the request of the entry that a line of a trace tells, `None` where it tells none of the plant. The
/// line is without the LF that ends it. It takes no memory.
pub fn trace_request(plant: &Plant, line: &[u8]) -> Option<(u64, Request)>
    ensures found { IfSome result
        (λ found. TellsRequest plant.now line.now found.0 found.1) }
    ensures only { (position : ℕ) (request : Request)
        → TellsRequest plant.now line.now position request
        → result ≡ Some (position, request) }
{
    let Some(traced) = read_line(plant, line) else {
        return None;
    };
    Some((traced.position, traced.request))
}

/// The entry of a history of the plant that a line of a trace tells, `None` where it tells none. The line is without the LF that
/// ends it. It takes no memory.
pub fn read_line<'t>(plant: &Plant, line: &'t [u8]) -> Option<Traced<'t>>
    ensures found { IfSome result
        (λ traced. LineTells plant.now line.now (entry_of traced)) }
    ensures only { (entry : TracedEntry) → LineTells plant.now line.now entry
        → IsSomeAnd result (λ traced. entry_of traced ≡ entry) }
{
    if line.len() > MAX_LINE {
        return None;
    }
    let Some((position, asked)) = read_number(line) else {
        return None;
    };
    let Some((request, answered)) = read_request(plant, asked) else {
        return None;
    };
    let Some(reply) = behind(b"= ", answered) else {
        return None;
    };
    if !is_reply(reply) {
        return None;
    }
    Some(Traced {
        position,
        request,
        reply,
    })
}
