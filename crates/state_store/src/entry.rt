//! Entries: a number, the low byte first, and a text.

ghost use Rattle.std.specs.Prelude.{◌≡◌, ◌++◌, List, ℕ};
ghost use Rattle.state_store.specs.Slots.{number_of, text_of};

/// The eight bytes of a number, with which its entry begins.
pub fn number_bytes(number: u64) -> [u8; 8]
    ensures number { (text : List ℕ) → number_of (result ++ text) ≡ number }
    ensures text { (text : List ℕ) → text_of (result ++ text) ≡ text }
{
    number.to_le_bytes()
}
