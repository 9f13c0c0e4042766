//! Notes, by which one seat's history reaches another.

ghost use Rattle.std.specs.Prelude.{◌≡◌, ◌⊎◌};
ghost use mathlib.Core.List.{IsPrefix};
ghost use Rattle.history_lock.specs.Calls.{HasOwn};

use crate::lock::HistoryLock;
use crate::machine::Machine;
use crate::seat::{Note, Seat};
use crate::steps::{look, new_note, take_note};

impl<M: Machine> HistoryLock<M> {
    /// What the seat has seen, to be handed to another thread.
    pub fn note(&self, seat: &mut Seat<M>) -> Note<M>
        requires seat { seat.old.lock ≡ self.now.id }
        ensures same { seat.new ≡ seat.old }
        ensures lock { result.lock ≡ self.now.id }
        ensures seen { result.seen ≡ seat.old.seen }
    {
        Note {
            place: new_note(&self.table.shared, &mut seat.place),
        }
    }

    /// Sees what the note has seen, too.
    pub fn meet(&self, seat: &mut Seat<M>, note: Note<M>)
        requires seat { seat.old.lock ≡ self.now.id }
        requires note { note.lock ≡ self.now.id }
        ensures own { IsPrefix seat.old.seen seat.new.seen }
        ensures met { IsPrefix note.seen seat.new.seen }
        ensures no_more { (seat.new.seen ≡ seat.old.seen) ⊎ (seat.new.seen ≡ note.seen) }
        ensures entries { HasOwn seat.new.seen seat.old }
        ensures rest { seat.new ≡ record seat.old { seen = seat.new.seen } }
    {
        let Note { place: note } = note;
        let top = &self.table.shared;
        take_note(top, &mut seat.place, note);
        look(top, &mut seat.place);
    }
}
