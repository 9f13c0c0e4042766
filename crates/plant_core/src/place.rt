//! A destination by its place, as messages have it and as a plant has it. Two functions aren't methods since neither type
//! is of this crate, so none of their traits can be implemented here.

ghost use Rattle.std.specs.Prelude.{◌≡◌, ◌<◌};
ghost use Rattle.plant_config.specs.Plant.{destinations_of};
ghost use Rattle.plant_core.specs.Salvos.{dest_place, message_place};

use crate::state::PlantState;
use plant_config::{DestId, Point};

// A message's place as the plant's.
// kit: `impl From<swp08_messages::Point> for Point` is an impl of another crate's trait for another crate's type.
pub(crate) fn place_of(at: swp08_messages::Point) -> Point
    ensures { result ≡ record { matrix = at.matrix; level = at.level; dest = at.dest } }
{
    Point {
        matrix: at.matrix,
        level: at.level,
        dest: at.dest,
    }
}

// A plant's place as messages have it.
pub(crate) fn message_place(place: Point) -> swp08_messages::Point
    ensures { result ≡ message_place place }
{
    swp08_messages::Point {
        matrix: place.matrix,
        level: place.level,
        dest: place.dest,
    }
}

impl PlantState {
    // A destination's place as messages have it.
    pub(crate) fn dest_place(&self, dest: DestId) -> swp08_messages::Point
        requires { dest < destinations_of self.now.plant }
        ensures { result ≡ dest_place self.now.plant dest }
    {
        message_place(self.plant.point(dest))
    }
}
