//! Typed numbers, so that the number of one thing never stands for another.

ghost use Rattle.std.specs.Prelude.{◌≡◌};

use std::marker::{Model, PhantomData};

/// The number of a `Thing`. A contract sees it as that number.
#[derive(Clone, Copy, Debug, PartialEq, Eq, PartialOrd, Ord)]
pub struct Number<Thing> {
    number: u32,
    of: PhantomData<Thing>,
}

impl<Thing> Model for Number<Thing> {
    ghost use Rattle.std.specs.Prelude.{ℕ};

    ghost Value = { ℕ };

    ghost view = { λ id. id.number };

    ghost inverse = { λ number. record { number = number; of = record {} } };
}

impl<Thing> Number<Thing> {
    /// The thing of this number, whether or not a plant has it.
    pub fn of(number: u32) -> Self
        ensures { result ≡ number }
    {
        Number {
            number,
            of: PhantomData,
        }
    }

    /// Its number.
    pub fn get(&self) -> u32
        ensures { result ≡ self.now }
    {
        self.number
    }
}

/// A destination, numbered over the whole plant in the order matrix, level, number.
pub type DestId = Number<things::Destination>;

/// A source, numbered over the whole plant in the order matrix, level, number.
pub type SourceId = Number<things::Source>;

/// A pool of tie-lines, numbered in the order of the plant file.
pub type PoolId = Number<things::Pool>;

/// A tie-line, numbered in its pool.
pub type TieNo = Number<things::Tie>;

/// A device, numbered in the order of the plant file.
pub type DeviceId = Number<things::Device>;

/// A bus, numbered by its device and, within one device, in the order of the plant file.
pub type BusId = Number<things::Bus>;

/// A display, numbered in the order of the plant file.
pub type DisplayId = Number<things::Display>;

/// A panel, numbered in the order of the plant file.
pub type PanelNo = Number<things::Panel>;

/// What is numbered. Only the names count; what `Number` derives, its thing derives too.
mod things {
    #[derive(Clone, Copy, Debug, PartialEq, Eq, PartialOrd, Ord)]
    pub struct Destination;

    #[derive(Clone, Copy, Debug, PartialEq, Eq, PartialOrd, Ord)]
    pub struct Source;

    #[derive(Clone, Copy, Debug, PartialEq, Eq, PartialOrd, Ord)]
    pub struct Pool;

    #[derive(Clone, Copy, Debug, PartialEq, Eq, PartialOrd, Ord)]
    pub struct Tie;

    #[derive(Clone, Copy, Debug, PartialEq, Eq, PartialOrd, Ord)]
    pub struct Device;

    #[derive(Clone, Copy, Debug, PartialEq, Eq, PartialOrd, Ord)]
    pub struct Bus;

    #[derive(Clone, Copy, Debug, PartialEq, Eq, PartialOrd, Ord)]
    pub struct Display;

    #[derive(Clone, Copy, Debug, PartialEq, Eq, PartialOrd, Ord)]
    pub struct Panel;
}
