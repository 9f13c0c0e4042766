//! The audit of a trace.

ghost use Rattle.std.specs.Prelude.{[], IfOk};
ghost use Rattle.line_text.specs.Lines.{lines};
ghost use Rattle.trace_audit.specs.Verdict.{IsVerdict};
ghost use Rattle.trace_audit.specs.KeptInside.{IsReadTo, IsReadOf};

use crate::kept::Kept;
use crate::verdict::Verdict;
use crate::walk::walk;
use line_text::split_line;
use plant_config::Plant;
use std::alloc::{AllocError, Global};
use std::simd::prelude::*;
use trace_lines::read_line;

// No line that tells an entry is shorter, with its LF.
const SHORTEST_LINE: usize = 14;

/// What is found in the text of a trace, whose lines are in any order. A line is an entry's text and LF, which the last line
/// may lack. It takes memory for the lines and for one plant.
pub fn audit(alloc: Global, plant: &Plant, text: &[u8]) -> Result<Verdict, AllocError>
    ensures { IfOk result (λ verdict. IsVerdict plant.now (lines text.now) verdict) }
{
    let mut kept = Kept::new(alloc, count_lines(text))?;
    if let Some(number) = read_lines(plant, text, &mut kept)? {
        return Ok(Verdict::BadLine(number));
    }
    match walk(alloc, plant, &kept)? {
        Some(found) => Ok(found),
        None => Ok(Verdict::Confirmed(kept.lines())),
    }
}

// Keeps the entries of the lines up to the first one that tells none, and answers its number, counted from 1, or `None` where
// all lines told one. A text has at most as many lines as bytes.
fn read_lines<'t>(
    plant: &Plant,
    text: &'t [u8],
    kept: &mut Kept<'t>,
) -> Result<Option<u64>, AllocError>
    requires { IsReadTo plant.now [] kept.old }
    ensures { IfOk result (λ bad. IsReadOf plant.now (lines text.now) kept.new bad) }
{
    let mut rest = text;
    for before in 0..text.len() as u64 {
        if rest.is_empty() {
            return Ok(None);
        }
        let (line, after) = split_line(rest);
        let Some(traced) = read_line(plant, line) else {
            return Ok(Some(before + 1));
        };
        kept.put(&traced)?;
        rest = after;
    }
    Ok(None)
}

// How many lines a text has, or a few more, but no more than can tell entries. No clause holds it to that, since it is but how
// many rows get room at once.
fn count_lines(text: &[u8]) -> usize {
    // So many lines end in less than 64 bytes at the most.
    let mut count: usize = 5;
    for i in 0..text.len() / 64 {
        let ends = u8x64::from_slice(&text[64 * i..]).simd_eq(u8x64::splat(b'\n'));
        count = count.wrapping_add(ends.to_bitmask().count_ones() as usize);
    }
    count.min(text.len() / SHORTEST_LINE + 5)
}
