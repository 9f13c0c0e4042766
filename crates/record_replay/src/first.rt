//! The first line of a script, or of its rest, where it is a turn as most are.

ghost use Rattle.std.specs.Prelude.{◌≢◌, ◌*◌, ◌<◌, ◌≤◌, [], ◌∷◌, length, slice_index};
ghost use Rattle.std.specs.Prelude.{IfSome, MatchOption};
ghost use Rattle.record_replay.specs.LineInside.{SpellsPanel, SpellsNoPanel};
ghost use Rattle.record_replay.specs.PairsInside.{most_pairs};
ghost use Rattle.record_replay.specs.FirstInside.{BeginsFormed, BeginsWithTurn, BeginsAsTurn};
ghost use Rattle.record_replay.specs.FirstInside.{BeginsPlainly, BeginsShort, EndsBehind};

use crate::digits::Digits;
use crate::pairs::{MOST_PAIRS, count_pairs};
use crate::script::LF;
use line_text::SPACE;
use plant_config::{PanelNo, Plant};

// Begins the line of a turn.
const GREATER: u8 = b'>';

// So many bytes are left where the most pairs can be read behind `> P `, and the LF behind these.
const LEAST: usize = 2 * MOST_PAIRS + 5;

// Short way: the panel of the turn that the first line of a text is, and what is behind that line. The digits take its bytes.
// It is found wherever the line is a turn as most are, and no line that is something else is taken for one.
#[inline(always)]
pub(crate) fn take_turn<'s>(
    digits: &mut Digits,
    plant: &Plant,
    text: &'s [u8],
) -> Option<(PanelNo, &'s [u8])>
    ensures { MatchOption result
        (BeginsPlainly plant.now text.now → ⊥)
        (λ turn. BeginsWithTurn plant.now text.now turn.0 digits.new turn.1.now) }
{
    let (digit, hex) = split_digit(text)?;
    let panel = panel_of(plant, digit)?;
    let count = digits.read_pairs(hex);
    Some((panel, behind_pairs(hex, count)?))
}

// Short way: what is behind the first line of a text, where `take_turn` finds a turn. The turn's bytes are put nowhere.
#[inline(always)]
pub(crate) fn pass_turn<'s>(plant: &Plant, text: &'s [u8]) -> Option<&'s [u8]>
    ensures { MatchOption result
        (BeginsPlainly plant.now text.now → ⊥)
        (λ behind. BeginsFormed plant.now text.now behind.now) }
{
    let (digit, hex) = split_digit(text)?;
    let _panel = panel_of(plant, digit)?;
    behind_pairs(hex, count_pairs(hex))
}

// The digit of a turn's panel, and the text from its hexadecimal on. It finds them wherever a text begins so and isn't near
// the end.
#[inline(always)]
fn split_digit(text: &[u8]) -> Option<(u8, &[u8])>
    ensures turn { MatchOption result
        (BeginsShort text.now)
        (λ turn. BeginsAsTurn text.now turn.0 turn.1.now) }
    ensures long { IfSome result (λ turn. 2 * most_pairs < length turn.1.now) }
{
    if text.len() < LEAST {
        return None;
    }
    match text {
        [GREATER, SPACE, digit, SPACE, hex @ ..] => Some((*digit, hex)),
        _ => None,
    }
}

// What is behind the line that ends behind so many pairs, `None` where it doesn't end there, or has no pairs.
#[inline(always)]
fn behind_pairs(hex: &[u8], count: usize) -> Option<&[u8]>
    requires { 2 * count < length hex.now }
    ensures { MatchOption result
        (1 ≤ count → slice_index hex.now (2 * count) ≢ LF)
        (λ behind. (1 ≤ count) × EndsBehind (2 * count) hex.now behind.now) }
{
    if count == 0 || hex[2 * count] != LF {
        return None;
    }
    Some(&hex[2 * count + 1..])
}

// The panel of the plant whose number is one digit.
#[inline(always)]
fn panel_of(plant: &Plant, digit: u8) -> Option<PanelNo>
    ensures { MatchOption result
        (SpellsNoPanel plant.now (digit ∷ []))
        (λ panel. SpellsPanel plant.now (digit ∷ []) panel) }
{
    let panels = plant.panels().len().min(10);
    let digit = digit as usize;
    if digit < 48 || digit - 48 >= panels {
        return None;
    }
    Some(PanelNo::of((digit - 48) as u32))
}
