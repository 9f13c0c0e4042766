//! Which displays of a plant are due.

ghost use Rattle.std.specs.Prelude.{◌≡◌, ◌↔◌, ◌<◌, ◌==◌, ℕ, true, false, All, length, IfOk, IsTrue};
ghost use Rattle.plant_config.specs.Plant.{PlantData};
ghost use Rattle.plant_config.specs.IsPlant.{IsPlant};
ghost use Rattle.change_boards.specs.Screens.{AreScreensOf};
ghost use Rattle.change_boards.specs.ShownLaws.{is_in_list};
ghost use Rattle.due_displays.specs.Due.{AreDueOf, is_due};
ghost use Rattle.due_displays.specs.Changed.{BecomeDue, LosesDue, IsFirstDue, watches};

use crate::row::Row;
use crate::tables::{positions_of, rows_of, screen_count};
use crate::watchers::Watchers;
use change_boards::Screens;
use number_tables::NumberSet;
use plant_config::{DestId, DisplayId, Plant};
use std::alloc::{AllocError, Global};
use std::marker::Model;

/// Which displays of a plant may differ from what they were last shown.
#[derive(Debug, Drop)]
pub struct DueDisplays {
    watchers: Watchers,
    /// The position of each display among those of its screen.
    positions: Vec<usize>,
    /// By screen, the positions of displays that are due.
    rows: Vec<Row>,
    /// The screens that have some.
    screens: NumberSet,
}

impl Model for DueDisplays {
    ghost use Rattle.due_displays.specs.Due.{Due, due_code};

    ghost Value = { Due };

    ghost coded = { due_code };

    ghost view = { λ due. record {
      lasts = due.watchers.lasts.items;
      befores = due.watchers.befores.items;
      positions = due.positions.items;
      rows = due.rows.items;
      screens = due.screens;
    } };
}

impl DueDisplays {
    /// All displays of a plant are due.
    pub fn new(alloc: Global, plant: &Plant, screens: &Screens) -> Result<DueDisplays, AllocError>
        requires plant { IsPlant plant.now }
        requires screens { AreScreensOf plant.now screens.now }
        ensures kept { IfOk result (AreDueOf plant.now) }
        ensures all { IfOk result (λ due. (display : ℕ) → display < length plant.now.displays
            → is_due plant.now due display ≡ true) }
    {
        let mut due = DueDisplays::none(alloc, plant, screens)?;
        for number in 0..plant.displays().len() {
            due.add(plant, DisplayId::of(number as u32));
        }
        Ok(due)
    }

    // No display of a plant is due.
    fn none(alloc: Global, plant: &Plant, screens: &Screens) -> Result<DueDisplays, AllocError>
        requires plant { IsPlant plant.now }
        requires screens { AreScreensOf plant.now screens.now }
        ensures { IfOk result (AreDueOf plant.now) }
    {
        let count = screen_count(plant);
        Ok(DueDisplays {
            watchers: Watchers::new(alloc, plant)?,
            positions: positions_of(alloc, plant, screens, count)?,
            rows: rows_of(alloc, screens, count)?,
            screens: NumberSet::new(alloc)?,
        })
    }

    /// A display is due.
    pub fn add(&mut self, plant: &Plant, display: DisplayId)
        requires kept { AreDueOf plant.now self.old }
        requires display { display < length plant.now.displays }
        ensures { BecomeDue plant.now self.old self.new (λ other. other == display) }
    {
        let number = display.get() as usize;
        let screen = plant.displays()[number].screen;
        self.rows[screen as usize].insert(self.positions[number]);
        self.screens.insert(screen as u32);
    }

    /// These displays are due.
    pub fn add_all(&mut self, plant: &Plant, displays: &[DisplayId])
        requires kept { AreDueOf plant.now self.old }
        requires displays { All (λ display. display < length plant.now.displays) displays.now }
        ensures { BecomeDue plant.now self.old self.new (is_in_list displays.now) }
    {
        for display in displays {
            self.add(plant, *display);
        }
    }

    /// The displays that watch a destination are due.
    pub fn add_watchers(&mut self, plant: &Plant, dest: DestId)
        requires { AreDueOf plant.now self.old }
        ensures { BecomeDue plant.now self.old self.new (watches plant.now dest) }
    {
        let mut found = self.watchers.last(dest);
        while let Some(number) = found {
            found = self.watchers.before(number);
            self.add(plant, DisplayId::of(number));
        }
    }

    /// A display isn't due any more.
    pub fn remove(&mut self, plant: &Plant, display: DisplayId)
        requires kept { AreDueOf plant.now self.old }
        requires display { display < length plant.now.displays }
        ensures { LosesDue plant.now self.old self.new display }
    {
        let number = display.get() as usize;
        let screen = plant.displays()[number].screen;
        let row = &mut self.rows[screen as usize];
        row.remove(self.positions[number]);
        if row.lowest().is_none() {
            self.screens.remove(screen as u32);
        }
    }

    /// The position of the first display of a screen that is due, in the order of their indexes. `None` where none is.
    pub fn first(&self, screen: u16) -> Option<usize>
        ensures { (plant : PlantData) → AreDueOf plant self.now
            → IsFirstDue plant self.now screen result }
    {
        let screen = screen as usize;
        if screen >= self.rows.len() {
            return None;
        }
        self.rows[screen].lowest()
    }

    /// Whether no display of any screen is due.
    pub fn is_empty(&self) -> bool
        ensures { (plant : PlantData) → AreDueOf plant self.now
            → (IsTrue result ↔ ((display : ℕ) → display < length plant.displays
            → is_due plant self.now display ≡ false)) }
    {
        self.screens.is_empty()
    }
}
