//! The entry of a state: its number and its text.

ghost use Rattle.std.specs.Prelude.{◌≡◌, ◌≤◌, ◌++◌, ℕ, List, length, vec_len, vec_capacity};
ghost use Rattle.state_store.specs.Slots.{number_of, text_of};
ghost use Rattle.plant_snapshot.specs.StandsFor.{entry_size, IsTextOf};

use line_text::append;
use plant_core::PlantState;
use state_store::number_bytes;

// Puts the entry of a state under a number in the place of what stands there. There is room for it: this takes no memory.
pub(crate) fn put_entry(number: u64, state: &PlantState, entry: &mut Vec<u8>)
    requires { entry_size state.now.plant ≤ vec_capacity entry.old }
    ensures number { number_of entry.new.items ≡ number }
    ensures text { IsTextOf state.now.plant state.now (text_of entry.new.items) }
    ensures len { length entry.new.items ≡ entry_size state.now.plant }
    ensures room { vec_capacity entry.new ≡ vec_capacity entry.old }
{
    state.is_kept();
    begin_entry(number, entry);
    state.write_state(entry);
}

// Puts a number in the place of what stands there. An entry that begins so has this number, and what follows is its text.
fn begin_entry(number: u64, entry: &mut Vec<u8>)
    requires { 8 ≤ vec_capacity entry.old }
    ensures number { (text : List ℕ) → number_of (entry.new.items ++ text) ≡ number }
    ensures text { (text : List ℕ) → text_of (entry.new.items ++ text) ≡ text }
    ensures len { vec_len entry.new ≡ 8 }
    ensures room { vec_capacity entry.new ≡ vec_capacity entry.old }
{
    entry.clear();
    append(&number_bytes(number), entry);
}
