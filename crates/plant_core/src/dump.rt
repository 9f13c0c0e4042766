//! What a dump of a level is answered.

ghost use Rattle.std.specs.Prelude.{◌≡◌, ◌<◌, ◌≤◌, [], ◌∷◌, ◌++◌, length};
ghost use Rattle.plant_core.specs.State.{IsValid};
ghost use Rattle.plant_core.specs.Step.{dest_count, dumped, dumped_at};
ghost use Rattle.plant_core.specs.Answer.{room_of};

use crate::answer::{Answer, put};
use crate::state::PlantState;
use crate::wide::is_wide;
use history_lock::OutBox;
use swp08_messages::Point;

impl PlantState {
    // Tells each destination of a level, in order, with the source that stands there.
    #[inline(never)]
    pub(crate) fn dump(&self, matrix: u8, level: u8, out: &mut OutBox<Answer>)
        requires empty { out.old.items ≡ [] }
        requires places { room_of self.now.plant ≤ out.old.places }
        ensures answers { out.new.items ≡ dumped self.now matrix level }
        ensures places { out.new.places ≡ out.old.places }
        ensures valid { IsValid self.now }
    {
        for dest in 0..self.dest_count(matrix, level) {
            let at = Point {
                matrix,
                level,
                dest,
            };
            self.tell(at, out);
        }
    }

    // Tells a destination with the source that stands there.
    fn tell(&self, at: Point, out: &mut OutBox<Answer>)
        requires { length out.old.items < out.old.places }
        ensures items { out.new.items ≡ out.old.items ++ dumped_at self.now at ∷ [] }
        ensures places { out.new.places ≡ out.old.places }
    {
        let source = self.standing(at);
        let told = Answer::Dumped {
            matrix: at.matrix,
            level: at.level,
            dest: at.dest,
            source,
        };
        put(told, out);
    }

    // How many destinations of a level are dumped, none where the plant has no such level, or it is wide.
    fn dest_count(&self, matrix: u8, level: u8) -> u16
        ensures count { result ≡ dest_count self.now.plant matrix level }
        ensures within { result ≤ room_of self.now.plant }
        ensures valid { IsValid self.now }
    {
        match self.plant.level_at(matrix, level) {
            Some(at) if !is_wide(&at) => at.destinations as u16,
            _ => 0,
        }
    }
}
