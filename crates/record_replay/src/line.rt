//! What a line of a script spells.

ghost use Rattle.std.specs.Prelude.{◌≡◌, ◌≤◌, length, MatchOption};
ghost use Rattle.record_replay.specs.Script.{longest_line};
ghost use Rattle.record_replay.specs.LineInside.{IsTurn, IsNoTurn, IsBad, IsFound};
ghost use Rattle.record_replay.specs.LineInside.{IsShow, IsNoShow};

use crate::digits::Digits;
use crate::number::{read_panel, read_screen};
use crate::script::HASH;
use crate::take::read_take;
use line_text::{MAX_LINE, SPACE, split_at};
use plant_config::{PanelNo, Plant};
use plant_names::Names;

/// What a line asks. The bytes of a turn are in the digits' room.
#[derive(Clone, Copy, Debug, PartialEq, Eq)]
pub(crate) enum Line {
    /// Nothing: the line is empty or begins with `#`.
    Skipped,
    /// One turn of this panel's session.
    Read(PanelNo),
    /// That this panel leaves.
    Leave(PanelNo),
    /// A display poll of this screen, with a refresh or without.
    Show { screen: u16, refresh: bool },
}

// What a line asks, `None` where it has no form. It takes no memory.
pub(crate) fn read_line(
    digits: &mut Digits,
    plant: &Plant,
    names: &Names,
    line: &[u8],
) -> Option<Line>
    requires { names.now ≡ plant.now }
    ensures { MatchOption result
        (IsBad plant.now line.now)
        (λ found. IsFound plant.now line.now found digits.new) }
{
    match line {
        [] => return Some(Line::Skipped),
        [first, ..] if *first == HASH => return Some(Line::Skipped),
        _ => {}
    }
    if line.len() > MAX_LINE {
        return None;
    }
    if let Some(behind) = line.strip_prefix(b"> ") {
        return Some(Line::Read(read_turn(digits, plant, behind)?));
    }
    if let Some(behind) = line.strip_prefix(b"take ") {
        return Some(Line::Read(read_take(digits, plant, names, behind)?));
    }
    if let Some(number) = line.strip_prefix(b"poll ") {
        digits.clear();
        return Some(Line::Read(read_panel(plant, number)?));
    }
    if let Some(number) = line.strip_prefix(b"leave ") {
        return Some(Line::Leave(read_panel(plant, number)?));
    }
    read_show(plant, line)
}

// The display poll that a line spells, `None` where it spells none.
fn read_show(plant: &Plant, line: &[u8]) -> Option<Line>
    requires { length line.now ≤ longest_line }
    ensures { MatchOption result
        (IsNoShow plant.now line.now)
        (IsShow plant.now line.now) }
{
    let (number, refresh) = if let Some(number) = line.strip_prefix(b"show ") {
        (number, false)
    } else {
        (line.strip_prefix(b"refresh ")?, true)
    };
    let screen = read_screen(plant, number)?;
    Some(Line::Show { screen, refresh })
}

// The panel of a turn, of which a line has this behind `> `. The digits take its bytes.
fn read_turn(digits: &mut Digits, plant: &Plant, behind: &[u8]) -> Option<PanelNo>
    requires { length behind.now ≤ longest_line }
    ensures { MatchOption result
        (IsNoTurn plant.now behind.now)
        (λ panel. IsTurn plant.now behind.now panel digits.new) }
{
    let (number, hex) = split_at(SPACE, behind)?;
    let panel = read_panel(plant, number)?;
    if digits.read(hex) && !digits.bytes().is_empty() {
        Some(panel)
    } else {
        None
    }
}
