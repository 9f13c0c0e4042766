//! What is true of the texts of all states.

ghost use Rattle.std.specs.Prelude.{◌≡◌};
ghost use Rattle.plant_core.specs.State.{State, IsValid};
ghost use Rattle.plant_core.specs.StateText.{state_text};
ghost use Rattle.plant_core.specs.TextLaws.{TextsAreWhole};

/// Two valid states of one plant with one text are one state. So of what was written and is read again nothing is lost.
pub fn texts_tell_states()
    ensures { (one other : State) → IsValid one → IsValid other → one.plant ≡ other.plant
        → state_text one ≡ state_text other → one ≡ other }
{}

/// The text of a valid state breaks no rule, where it stays within what the commands that aren't extended can tell.
pub fn texts_are_whole()
    ensures { TextsAreWhole }
{}
