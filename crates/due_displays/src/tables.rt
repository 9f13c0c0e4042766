//! Where the displays of a plant stand.

ghost use Rattle.std.specs.Prelude.{◌≡◌, ◌<◌, ◌≤◌, ℕ, All, length, IfOk};
ghost use Rattle.number_tables.specs.Numbers.{number_limit};
ghost use Rattle.change_boards.specs.Screens.{AreScreensOf};
ghost use Rattle.due_displays.specs.TablesInside.{AreRowsOf, ArePositionsOf, ArePut};

use crate::row::Row;
use change_boards::Screens;
use plant_config::{DisplayId, Plant};
use std::alloc::{AllocError, Global};

// The number behind the last screen that displays are on, 0 where there is none.
pub(crate) fn screen_count(plant: &Plant) -> usize
    ensures above { All (λ display. display.screen < result) plant.now.displays }
    ensures most { result ≤ number_limit }
{
    let mut count = 0;
    for display in plant.displays() {
        let screen = display.screen as usize;
        if count <= screen {
            count = screen + 1;
        }
    }
    count
}

// A row for each screen, with room for its displays.
pub(crate) fn rows_of(
    alloc: Global,
    screens: &Screens,
    count: usize,
) -> Result<Vec<Row>, AllocError>
    requires { count ≤ number_limit }
    ensures { IfOk result (λ rows. AreRowsOf screens.now count rows.items) }
{
    let mut rows = Vec::with_capacity(alloc, count)?;
    for screen in 0..count {
        let room = screens.displays(screen as u16).len();
        rows.push(Row::new(alloc, room)?)?;
    }
    Ok(rows)
}

// The position of each display on its screen.
pub(crate) fn positions_of(
    alloc: Global,
    plant: &Plant,
    screens: &Screens,
    count: usize,
) -> Result<Vec<usize>, AllocError>
    requires count { count ≤ number_limit }
    requires screens { AreScreensOf plant.now screens.now }
    ensures { IfOk result (λ positions. ArePositionsOf plant.now count positions.items) }
{
    let mut positions = zeroes(alloc, plant.displays().len())?;
    for screen in 0..count {
        put_positions(screens.displays(screen as u16), &mut positions);
    }
    Ok(positions)
}

// Gives each of these displays its position among them.
fn put_positions(displays: &[DisplayId], positions: &mut [usize])
    requires { All (λ display. display < length positions.old) displays.now }
    ensures { ArePut displays.now positions.old positions.new }
{
    for position in 0..displays.len() {
        let display = displays[position].get();
        positions[display as usize] = position;
    }
}

// So many zeroes.
fn zeroes(alloc: Global, count: usize) -> Result<Vec<usize>, AllocError>
    ensures { IfOk result (λ positions. length positions.items ≡ count) }
{
    vec![in alloc; 0; count]
}
