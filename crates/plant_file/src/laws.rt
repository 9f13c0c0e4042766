//! What is true of what is read of every text, and of every fault of its sections and keys.

ghost use Rattle.std.specs.Prelude.{ℕ, List};
ghost use Rattle.std.specs.Result.{ForOk, ForErr};
ghost use Rattle.plant_file.specs.Ranges.{AreInRange};
ghost use Rattle.plant_file.specs.Places.{IsFaultOf};
ghost use Rattle.plant_file.specs.DataOfText.{data_of_text};

/// What is read of a text is within its ranges.
pub fn what_is_read_is_in_range()
    ensures { (text : List ℕ) → ForOk (data_of_text text) AreInRange }
{}

/// The sections and keys of a text are at fault since it is no document, or at a place that its document has: a section as
/// a whole, or a key of a section in an entry that is there.
pub fn faults_of_keys_have_a_place()
    ensures { (text : List ℕ) → ForErr (data_of_text text) (IsFaultOf text) }
{}
