//! How a plant answers.

ghost use Rattle.std.specs.Prelude.{◌≡◌, ◌<◌, ◌∷◌, ◌++◌, [], length};

use change_boards::Value;
use history_lock::OutBox;
use plant_config::DisplayId;
use swp08_messages::Message;

/// One answer to an event.
#[derive(Clone, Copy, Debug, PartialEq, Eq)]
pub enum Answer {
    /// This message is sent to the panel.
    Say(Message),
    /// The panel asked for a dump, of which this destination is a part: by its matrix and level, 0 to 15, and its number, 0
    /// to 1023, with the source that stands there, 0 to 1022, `None` for a parked one.
    Dumped {
        matrix: u8,
        level: u8,
        dest: u16,
        source: Option<u16>,
    },
    /// This display of the screen that was polled is shown this value.
    Lamp {
        display: DisplayId,
        value: Value,
    },
    /// No display of any screen differs from what it shows, and all panels have left.
    Finished,
}

// Puts an answer behind the others.
// kit: `out.put(answer)` alone gets no proof, as no type of what a lamp has is named here; so lamps have an arm.
pub(crate) fn put(answer: Answer, out: &mut OutBox<Answer>)
    requires { length out.old.items < out.old.places }
    ensures items { out.new.items ≡ out.old.items ++ answer ∷ [] }
    ensures places { out.new.places ≡ out.old.places }
{
    match answer {
        Answer::Lamp { display, value } => out.put(Answer::Lamp { display, value }),
        answer => out.put(answer),
    }
}
