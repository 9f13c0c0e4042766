//! What is true of all marks, not only of those that a program makes.

ghost use Rattle.std.specs.Prelude.{ℕ, Bool, List};
ghost use Rattle.plant_config.specs.Plant.{PlantData};
ghost use Rattle.crosspoint_state.specs.Crosspoints.{Crosspoints};
ghost use Rattle.tally.specs.Left.{AreLeftOver, LeftAreLive};
ghost use Rattle.tally.specs.Marks.{Marks};
ghost use Rattle.tally.specs.MarkLaws.{AreSettled, SayWhatIsLive};
ghost use Rattle.tally.specs.Reads.{ReadsAreFew};

/// Of all that was live, what is left is live, once all is dark that may have lost its way to the roots.
pub fn what_is_left_is_live()
    ensures { (plant : PlantData) (old new : Crosspoints) (roots : List ℕ)
        (is_left : ℕ → Bool) → AreLeftOver plant old new roots is_left
        → LeftAreLive plant old new roots is_left }
{}

/// Settled marks say what is live and what is seen.
pub fn settled_marks_say_what_is_live()
    ensures { (plant : PlantData) (points : Crosspoints) (roots : List ℕ) (marks : Marks) →
        AreSettled plant points roots marks → SayWhatIsLive plant points roots marks }
{}

/// An update reads at most 16 for each device that is affected by what moved, for each bus of one, for each destination that
/// carries what one puts out, for each destination that moved and each bus that it switches, and 16 more.
pub fn reads_are_few()
    ensures { (plant : PlantData) (old new : Crosspoints) (roots : List ℕ) →
        ReadsAreFew plant old new roots }
{}
