//! Whether each line of a script has a form.

ghost use Rattle.std.specs.Prelude.{◌≡◌, ◌<◌, length, MatchOption};
ghost use Rattle.std.specs.Bool.{OnTrue, OnFalse};
ghost use Rattle.record_replay.specs.Script.{HasWorks, IsFirstBad};
ghost use Rattle.record_replay.specs.LineInside.{IsFormed, IsBad};
ghost use Rattle.record_replay.specs.FirstInside.{BeginsFormed, BeginsBad};

use crate::digits::Digits;
use crate::first::pass_turn;
use crate::line::read_line;
use line_text::split_line;
use plant_config::Plant;
use plant_names::Names;

// The number of a script's first line that has no form, counted from 1, if it has one. It takes no memory.
pub(crate) fn check_lines(
    digits: &mut Digits,
    plant: &Plant,
    names: &Names,
    script: &[u8],
) -> Option<u64>
    requires { names.now ≡ plant.now }
    ensures { MatchOption result
        (HasWorks plant.now script.now)
        (λ number. IsFirstBad plant.now script.now number) }
{
    let mut number = 0;
    let mut rest = script;
    while !rest.is_empty() {
        number += 1;
        let Some(behind) = pass_line(digits, plant, names, rest) else {
            return Some(number);
        };
        rest = behind;
    }
    None
}

// What is behind the first line of a text, `None` where that line has no form.
#[inline]
fn pass_line<'s>(
    digits: &mut Digits,
    plant: &Plant,
    names: &Names,
    text: &'s [u8],
) -> Option<&'s [u8]>
    requires names { names.now ≡ plant.now }
    requires some { 0 < length text.now }
    ensures { MatchOption result
        (BeginsBad plant.now text.now)
        (λ behind. BeginsFormed plant.now text.now behind.now) }
{
    if let Some(behind) = pass_turn(plant, text) {
        return Some(behind);
    }
    let (line, behind) = split_line(text);
    if has_form(digits, plant, names, line) {
        Some(behind)
    } else {
        None
    }
}

// Whether a line has a form. Out of line, so that the loop over most lines is short.
#[inline(never)]
fn has_form(digits: &mut Digits, plant: &Plant, names: &Names, line: &[u8]) -> bool
    requires { names.now ≡ plant.now }
    ensures formed { OnTrue result (IsFormed plant.now line.now) }
    ensures bad { OnFalse result (IsBad plant.now line.now) }
{
    read_line(digits, plant, names, line).is_some()
}
