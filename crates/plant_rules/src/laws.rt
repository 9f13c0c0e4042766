//! What is true of the data of every plant file, and of every fault.

ghost use Rattle.std.specs.Prelude.{◌≡◌, ◌↔◌, ℕ, List, []};
ghost use Rattle.std.specs.Result.{ForOk, ForErr};
ghost use Rattle.plant_file.specs.FileData.{FileData};
ghost use Rattle.plant_file.specs.Ranges.{AreInRange};
ghost use Rattle.plant_rules.specs.IsFile.{IsFile};
ghost use Rattle.plant_file.specs.Places.{IsFaultOf};
ghost use Rattle.plant_rules.specs.PlantFile.{data_faults, file_of_text};

/// What a text without a fault says is within its ranges, no two entries of it are the same, and each names only what the
/// plant has.
pub fn a_plant_file_is_right()
    ensures { (text : List ℕ) → ForOk (file_of_text text) IsFile }
{}

/// A text is at fault since it is no document, or at a place that its document has: a section as a whole, or a key of a
/// section in an entry that is there. It is never at fault for want of memory, so where a reading had none, nothing is
/// known of the text.
pub fn faults_have_a_place()
    ensures { (text : List ℕ) → ForErr (file_of_text text) (IsFaultOf text) }
{}

/// The rules on what entries may not be together refuse what isn't right, and nothing else.
pub fn the_rules_are_exact()
    ensures { (file : FileData) → AreInRange file → (data_faults file ≡ []) ↔ IsFile file }
{}
