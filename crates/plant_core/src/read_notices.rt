//! The notices of all panels are read from a state's text.

ghost use Rattle.std.specs.Prelude.{◌≡◌, ◌≢◌, ◌+◌, ◌*◌, ◌/◌, ◌<◌, ◌≤◌, length, None, IfOk};
ghost use Rattle.plant_config.specs.Plant.{destinations_of};
ghost use Rattle.plant_config.specs.IsPlant.{IsPlant};
ghost use Rattle.change_boards.specs.Board.{blank};
ghost use Rattle.change_boards.specs.Notices.{board_of};
ghost use Rattle.change_boards.specs.Laws.{AreBoards};
ghost use Rattle.plant_core.specs.StateText.{state_size};
ghost use Rattle.plant_core.specs.StateFields.{byte_at, place_of_panel};
ghost use Rattle.plant_core.specs.StateFault.{first_fault};
ghost use Rattle.plant_core.specs.ReadInside.{AreBoardsIn};
ghost use Rattle.plant_core.specs.ReadParts.{IsBoardIn, IsReadTo, SameBoardsBut, with_marks_by};

use crate::marks::word_in;
use crate::read_fields::{byte_at, place_of_panel};
use change_boards::{Notices, Sort};
use plant_config::{DestId, MAX_DESTINATIONS, PanelNo, Plant};
use std::alloc::{AllocError, Global};

/// The notices of all panels, from a text without a fault.
pub(crate) fn read_notices(
    alloc: Global,
    plant: &Plant,
    bytes: &[u8],
) -> Result<Notices, AllocError>
    requires plant { IsPlant plant.now }
    requires size { length bytes.now ≡ state_size plant.now }
    requires whole { first_fault plant.now bytes.now ≡ None }
    ensures { IfOk result (AreBoardsIn plant.now bytes.now) }
{
    let mut notices = Notices::new(alloc, plant)?;
    for panel in 0..plant.panels().len() {
        read_panel(plant, bytes, PanelNo::of(panel as u32), &mut notices);
    }
    Ok(notices)
}

// The notices of a panel that has none yet.
fn read_panel(plant: &Plant, bytes: &[u8], panel: PanelNo, notices: &mut Notices)
    requires size { length bytes.now ≡ state_size plant.now }
    requires whole { first_fault plant.now bytes.now ≡ None }
    requires panel { panel < length plant.now.panels }
    requires blank { board_of notices.old panel ≡ blank }
    requires boards { AreBoards notices.old (length plant.now.panels)
        (destinations_of plant.now) }
    ensures board { IsBoardIn plant.now bytes.now panel (board_of notices.new panel) }
    ensures others { SameBoardsBut notices.old notices.new panel }
    ensures boards { AreBoards notices.new (length plant.now.panels)
        (destinations_of plant.now) }
{
    let place = place_of_panel(plant, panel.get() as usize);
    if byte_at(bytes, place) == 1 {
        notices.drop_panel(panel);
    } else {
        read_marks(plant, bytes, panel, notices);
    }
}

// Those of a panel that hasn't left.
fn read_marks(plant: &Plant, bytes: &[u8], panel: PanelNo, notices: &mut Notices)
    requires size { length bytes.now ≡ state_size plant.now }
    requires whole { first_fault plant.now bytes.now ≡ None }
    requires panel { panel < length plant.now.panels }
    requires stays { byte_at bytes.now (place_of_panel plant.now panel) ≢ 1 }
    requires blank { board_of notices.old panel ≡ blank }
    requires boards { AreBoards notices.old (length plant.now.panels)
        (destinations_of plant.now) }
    ensures board { IsBoardIn plant.now bytes.now panel (board_of notices.new panel) }
    ensures others { SameBoardsBut notices.old notices.new panel }
    ensures boards { AreBoards notices.new (length plant.now.panels)
        (destinations_of plant.now) }
{
    read_places(plant, bytes, panel, plant.destination_count() / 64, notices);
    read_rest(plant, bytes, panel, notices);
}

// Those of so many times 64 destinations.
fn read_places(plant: &Plant, bytes: &[u8], panel: PanelNo, places: u32, notices: &mut Notices)
    requires size { length bytes.now ≡ state_size plant.now }
    requires whole { first_fault plant.now bytes.now ≡ None }
    requires panel { panel < length plant.now.panels }
    requires places { 64 * places ≤ destinations_of plant.now }
    requires blank { board_of notices.old panel ≡ blank }
    requires boards { AreBoards notices.old (length plant.now.panels)
        (destinations_of plant.now) }
    ensures read { IsReadTo plant.now bytes.now panel (board_of notices.new panel)
        (64 * places) }
    ensures others { SameBoardsBut notices.old notices.new panel }
    ensures boards { AreBoards notices.new (length plant.now.panels)
        (destinations_of plant.now) }
{
    for place in 0..places {
        read_place(plant, bytes, panel, place, notices);
    }
}

// Those of 64 destinations, from 64 times `place` on.
fn read_place(plant: &Plant, bytes: &[u8], panel: PanelNo, place: u32, notices: &mut Notices)
    requires size { length bytes.now ≡ state_size plant.now }
    requires whole { first_fault plant.now bytes.now ≡ None }
    requires panel { panel < length plant.now.panels }
    requires place { 64 * place + 64 ≤ destinations_of plant.now }
    requires read { IsReadTo plant.now bytes.now panel (board_of notices.old panel)
        (64 * place) }
    requires boards { AreBoards notices.old (length plant.now.panels)
        (destinations_of plant.now) }
    ensures read { IsReadTo plant.now bytes.now panel (board_of notices.new panel)
        (64 * place + 64) }
    ensures others { SameBoardsBut notices.old notices.new panel }
    ensures boards { AreBoards notices.new (length plant.now.panels)
        (destinations_of plant.now) }
{
    let first = place_of_panel(plant, panel.get() as usize) + 1 + 64 * place as usize;
    let source = word_in(bytes, first, Sort::Source);
    let protect = word_in(bytes, first, Sort::Protect);
    notices.put_word(panel, place, Sort::Source, source);
    notices.put_word(panel, place, Sort::Protect, protect);
}

// Those of the last destinations, behind the 64s.
fn read_rest(plant: &Plant, bytes: &[u8], panel: PanelNo, notices: &mut Notices)
    requires size { length bytes.now ≡ state_size plant.now }
    requires whole { first_fault plant.now bytes.now ≡ None }
    requires panel { panel < length plant.now.panels }
    requires read { IsReadTo plant.now bytes.now panel (board_of notices.old panel)
        (64 * (destinations_of plant.now / 64)) }
    requires boards { AreBoards notices.old (length plant.now.panels)
        (destinations_of plant.now) }
    ensures read { IsReadTo plant.now bytes.now panel (board_of notices.new panel)
        (destinations_of plant.now) }
    ensures others { SameBoardsBut notices.old notices.new panel }
    ensures boards { AreBoards notices.new (length plant.now.panels)
        (destinations_of plant.now) }
{
    let first = place_of_panel(plant, panel.get() as usize) + 1;
    let count = plant.destination_count();
    for number in 64 * (count / 64)..count {
        let byte = byte_at(bytes, first + number as usize);
        mark_by(notices, panel, DestId::of(number), byte);
    }
}

// The notices of a destination that a byte tells.
#[inline(always)]
fn mark_by(notices: &mut Notices, panel: PanelNo, dest: DestId, byte: u8)
    requires panel { panel < length notices.old }
    requires dest { dest < MAX_DESTINATIONS }
    ensures { notices.new ≡ with_marks_by notices.old panel dest byte }
{
    if byte == 1 || byte == 3 {
        notices.mark(panel, dest, Sort::Source);
    }
    if byte > 1 {
        notices.mark(panel, dest, Sort::Protect);
    }
}
