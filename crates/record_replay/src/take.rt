//! What a take in a line asks for: the connect of a destination to a source by their names.

ghost use Rattle.std.specs.Prelude.{◌≡◌, ◌<◌, IfSome, MatchOption};
ghost use Rattle.plant_config.specs.Limits.{level_destination_limit};
ghost use Rattle.plant_config.specs.IsPlant.{IsPlant};
ghost use Rattle.swp08_messages.specs.Text.{InRange, IsExtPoint, IsExtSource};
ghost use Rattle.record_replay.specs.Take.{dest_number_named, source_number_named};
ghost use Rattle.record_replay.specs.Take.{carried, connect_of, connect_named};
ghost use Rattle.record_replay.specs.Script.{AsksConnect};
ghost use Rattle.record_replay.specs.LineInside.{AreParts, HasNoParts, AsksNothing};
ghost use Rattle.record_replay.specs.LineInside.{IsTake, IsNoTake};

use crate::digits::Digits;
use crate::number::{read_number, read_panel};
use crate::script::TAB;
use line_text::{SPACE, split_at};
use plant_config::{PanelNo, Plant};
use plant_core::{is_short_dest, is_short_source};
use plant_names::Names;
use swp08_messages::{Message, Point};

// The parts of a take.
#[derive(Clone, Copy)]
struct Parts<'l> {
    panel: &'l [u8],
    matrix: &'l [u8],
    level: &'l [u8],
    dest: &'l [u8],
    source: &'l [u8],
}

// The panel of a take, of which a line has this behind `take `. The digits take the bytes of its connect's frame.
pub(crate) fn read_take(
    digits: &mut Digits,
    plant: &Plant,
    names: &Names,
    behind: &[u8],
) -> Option<PanelNo>
    requires { names.now ≡ plant.now }
    ensures { MatchOption result
        (IsNoTake plant.now behind.now)
        (λ panel. IsTake plant.now behind.now panel digits.new) }
{
    let parts = split_take(behind)?;
    let panel = read_panel(plant, parts.panel)?;
    let message = read_connect(plant, names, parts)?;
    digits.put_frame(&message);
    Some(panel)
}

// The parts of what a line has behind `take `.
fn split_take(behind: &[u8]) -> Option<Parts<'_>>
    ensures { MatchOption result
        (HasNoParts behind.now)
        (λ parts. AreParts behind.now parts.panel.now parts.matrix.now parts.level.now
        parts.dest.now parts.source.now) }
{
    let (panel, more) = split_at(SPACE, behind)?;
    let (matrix, rest) = split_at(SPACE, more)?;
    let (level, names) = split_at(TAB, rest)?;
    let (dest, source) = split_at(TAB, names)?;
    Some(Parts {
        panel,
        matrix,
        level,
        dest,
        source,
    })
}

// The connect that the parts of a take ask for.
fn read_connect(plant: &Plant, names: &Names, parts: Parts<'_>) -> Option<Message>
    requires plant { IsPlant plant.now }
    requires names { names.now ≡ plant.now }
    ensures asks { MatchOption result
        (AsksNothing plant.now parts.entry.matrix.now parts.entry.level.now
        parts.entry.dest.now parts.entry.source.now)
        (λ message. AsksConnect plant.now parts.entry.matrix.now parts.entry.level.now
        parts.entry.dest.now parts.entry.source.now message) }
    ensures in_range { IfSome result InRange }
{
    let matrix = read_number(parts.matrix)?;
    let level = read_number(parts.level)?;
    connect_named(plant, names, matrix, level, parts.dest, parts.source)
}

// The connect of a destination of a level to a source there.
fn connect_named(
    plant: &Plant,
    names: &Names,
    matrix: u32,
    level: u32,
    dest: &[u8],
    source: &[u8],
) -> Option<Message>
    requires plant { IsPlant plant.now }
    requires names { names.now ≡ plant.now }
    ensures connect { result ≡ connect_named plant.now matrix level dest.now source.now }
    ensures in_range { IfSome result InRange }
{
    if matrix >= 16 {
        return None;
    }
    if level >= 16 {
        return None;
    }
    let matrix = matrix as u8;
    let level = level as u8;
    let dest = dest_number(plant, names, matrix, level, dest)?;
    let source = carried(plant, names, matrix, level, source)?;
    let at = Point {
        matrix,
        level,
        dest,
    };
    Some(connect_of(at, source))
}

// The connect of a destination to a source, an extended one where either asks for it.
#[tactic(auto, using(crate::proofs::ConnectLemmas::connect_in_range))]
fn connect_of(at: Point, source: Option<u16>) -> Message
    requires place { IsExtPoint at }
    requires source { IsExtSource source }
    ensures connect { result ≡ connect_of at source }
    ensures in_range { InRange result }
{
    if is_short_dest(at.dest) && is_short_source(source) {
        Message::Connect { at, source }
    } else {
        Message::ExtConnect { at, source }
    }
}

// The number, in its level, of the destination of this name.
fn dest_number(plant: &Plant, names: &Names, matrix: u8, level: u8, name: &[u8]) -> Option<u16>
    requires plant { IsPlant plant.now }
    requires names { names.now ≡ plant.now }
    ensures number { result ≡ dest_number_named plant.now matrix level name.now }
    ensures below { IfSome result (λ number. number < level_destination_limit) }
{
    let dest = names.find_dest(matrix, level, name)?;
    Some(plant.point(dest).dest)
}

// What a destination is to carry by the name of a source.
fn carried(plant: &Plant, names: &Names, matrix: u8, level: u8, name: &[u8]) -> Option<Option<u16>>
    requires plant { IsPlant plant.now }
    requires names { names.now ≡ plant.now }
    ensures carried { result ≡ carried plant.now matrix level name.now }
    ensures source { IfSome result IsExtSource }
{
    if name.is_empty() {
        return Some(None);
    }
    let source = names.find_source(matrix, level, name)?;
    Some(Some(plant.source_number(source)))
}
