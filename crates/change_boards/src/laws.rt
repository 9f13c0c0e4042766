//! What is true of all boards, screens and shown values, not only of those that a program makes.

ghost use Rattle.std.specs.Prelude.{ℕ, List};
ghost use Rattle.plant_config.specs.Plant.{PlantData};
ghost use Rattle.plant_config.specs.IsPlant.{IsPlant};
ghost use Rattle.change_boards.specs.Board.{Board};
ghost use Rattle.change_boards.specs.Notices.{start_boards};
ghost use Rattle.change_boards.specs.Laws.{AreBoards, IsBelow, LeavesAreOfOnePanel};
ghost use Rattle.change_boards.specs.Laws.{MarksAddOneNotice, StayBoards, RemovalsInOrder};
ghost use Rattle.change_boards.specs.Laws.{RemovalsAreOfOneNotice};
ghost use Rattle.change_boards.specs.Shown as shown;
ghost use Rattle.change_boards.specs.ShownLaws.{HasItsDisplays, ShowsAreOfOneDisplay};
ghost use Rattle.change_boards.specs.ShownLaws.{ForgetsAreOfTheseDisplays};

/// A mark adds one notice to one panel, and a mark on a panel that has left changes nothing.
pub fn marks_add_one_notice()
    ensures { (boards : List Board) → MarksAddOneNotice boards }
{}

/// A removal removes the first notice of its panel and no other.
pub fn removals_are_of_one_notice()
    ensures { (boards : List Board) → RemovalsAreOfOneNotice boards }
{}

/// With no mark between, so many removals remove the first so many notices of a panel, in their order.
pub fn removals_go_in_order()
    ensures { (board : Board) (count takes : ℕ) →
        IsBelow board count → RemovalsInOrder board count takes }
{}

/// A panel that leaves has no notices, and nothing of another panel changes.
pub fn leaves_are_of_one_panel()
    ensures { (boards : List Board) → LeavesAreOfOnePanel boards }
{}

/// Whoever has left has no notices and gets none, and all notices are of destinations of the plant, whatever is
/// marked, removed and left.
pub fn boards_stay_boards()
    ensures start { (panels count : ℕ) → AreBoards (start_boards panels) panels count }
    ensures stay { (boards : List Board) (panels count : ℕ) → AreBoards boards panels count →
        StayBoards boards panels count }
{}

/// The displays of a screen are those of the plant that are on it, each once, in the rising order of their indexes, and
/// there are none exactly where the plant has no such screen.
pub fn screens_have_their_displays()
    ensures { (plant : PlantData) (screen : ℕ) → IsPlant plant → HasItsDisplays plant screen }
{}

/// A display that is shown a value was last shown it and isn't to be shown it again; displays that are forgotten were
/// shown none and are to be shown any. Nothing of another display changes.
pub fn a_display_is_shown_alone()
    ensures shows { (values : shown.Shown) → ShowsAreOfOneDisplay values }
    ensures forgets { (values : shown.Shown) → ForgetsAreOfTheseDisplays values }
{}
