//! What answers a session's requests.

ghost use Rattle.std.specs.Prelude.{◌≡◌, ◌*◌, ◌≤◌, ℕ, Bool, true, List, [], ◌∷◌, ◌++◌, None};
ghost use Rattle.std.specs.Prelude.{All, IfSome, length};
ghost use Rattle.std.specs.Bool.{OnFalse, OnTrue};
ghost use Rattle.plant_config.specs.IsPlant.{IsPlant};
ghost use Rattle.plant_config.specs.Plant.{PlantData};
ghost use Rattle.plant_core.specs.Answer.{IsSayable, room_of};
ghost use Rattle.plant_core.specs.State.{FitsPlant};
ghost use Rattle.panel_session.specs.Answering.{entry_of, IsOfSession, IsSpelledFor};
ghost use Rattle.panel_session.specs.Entry.{PlantEntry};
ghost use Rattle.trace_lines.specs.TraceLine.{most_reply};
ghost use Rattle.trace_lines.specs.TraceLine.{MaySpell};

use history_lock::OutBox;
use plant_core::{Answer, Request};
use trace_lines::LineRoom;

/// What takes a session's requests: the plant itself, or its lock by a seat with a trace.
pub trait Answerer {
    // Whether all that a session has to say is sent before it asks.
    ghost sent_first: { Bool };

    // What it was lent it still has.
    ghost IsSame: { Self → Self → Type 0 };

    // Its entries have this seat.
    ghost IsSeat: { Self → ℕ → Type 0 };

    // It takes each request that fits this plant, and answers as the plant does.
    ghost Serves: { PlantData → Self → Type 0 };

    // It answered these one after another, with the line of each traced, and then is so.
    ghost Answers: { Self → List PlantEntry → Self → Type 0 };

    // It answered this at this position, has yet to trace its line, and then is so.
    ghost Enters: { Self → ℕ → PlantEntry → Self → Type 0 };

    // It answered this, its line wasn't traced as a whole, and then is so.
    ghost TracesPart: { Self → PlantEntry → Self → Type 0 };

    // It refused a request, and then is so.
    ghost Refuses: { Self → Self → Type 0 };

    /// Whether all that a session has to say is sent before it asks.
    fn sent_first(&self) -> bool
        ensures { result ≡ sent_first };

    /// Puts the answers to this request into the empty box, and answers the position of its entry, `None` where it refuses it.
    fn ask(&mut self, request: &Request, out: &mut OutBox<Answer>) -> Option<u64>
        requires serves { (plant : PlantData) × Serves plant self.old
            × FitsPlant plant request.now × (room_of plant ≤ out.old.places) }
        requires empty { out.old.items ≡ [] }
        ensures enters { IfSome result (λ position. (seat : ℕ) → IsSeat self.old seat
            → Enters self.old position (entry_of seat request.now out.new.items) self.new) }
        ensures refuses { result ≡ None → Refuses self.old self.new }
        ensures same { IsSame self.old self.new }
        ensures kept { result ≡ None → out.new ≡ out.old }
        ensures sayable { All IsSayable out.new.items }
        ensures few { (plant : PlantData) → Serves plant self.old
            → length out.new.items ≤ room_of plant }
        ensures places { out.new.places ≡ out.old.places };

    /// Traces the line of the entry at this position, by the bytes of the frames that answer it, alone where all is sent first.
    /// False where that fails.
    fn trace(&mut self, position: u64, request: &Request, sent: &[u8], line: &mut LineRoom) -> bool
        requires spelled { MaySpell request.now }
        requires of_session { IsOfSession request.now }
        requires few { sent_first ≡ true → 2 * length sent.now ≤ most_reply }
        ensures same { IsSame self.old self.new }
        ensures traced { OnTrue result ((before : Self) (entry : PlantEntry)
            → Enters before position entry self.old → entry.request ≡ request.now
            → (sent_first ≡ true → IsSpelledFor entry sent.now)
            → Answers before (entry ∷ []) self.new) }
        ensures part { OnFalse result ((before : Self) (entry : PlantEntry)
            → Enters before position entry self.old → entry.request ≡ request.now
            → (sent_first ≡ true → IsSpelledFor entry sent.now)
            → TracesPart before entry self.new) };

    ghost same_none: { (answerer : Self) → IsSame answerer answerer };

    ghost same_more: { (first next last : Self) → IsSame first next → IsSame next last
        → IsSame first last };

    // No entries are answered by one that stays as it is.
    ghost answers_none: { (answerer : Self) → Answers answerer [] answerer };

    // What is answered in two parts is answered as a whole.
    ghost answers_more: { (first next last : Self) (entries more : List PlantEntry)
        → Answers first entries next → Answers next more last
        → Answers first (entries ++ more) last };

    // Under the seat that it had, and for the same plants, it answers later.
    ghost seated_on: { (first last : Self) (entries : List PlantEntry) (seat : ℕ)
        → Answers first entries last → IsSeat first seat → IsSeat last seat };

    ghost serves_on: { (plant : PlantData) (first last : Self) (entries : List PlantEntry)
        → Answers first entries last → Serves plant first → Serves plant last };

    // What serves a plant shows that it is one.
    ghost serves_plant: { (plant : PlantData) (answerer : Self)
        → Serves plant answerer → IsPlant plant };

    // One that refuses is sent all that there is to say before it is asked.
    ghost refuses_last: { (first last : Self) → Refuses first last → sent_first ≡ true };
}
