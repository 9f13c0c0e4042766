//! What holds of every message's DATA.

ghost use Rattle.std.specs.Prelude.{◌≡◌, ◌≢◌, ℕ, ◌+◌, ◌*◌, ◌<◌, ◌≤◌, ◌⊎◌, List, length, All};
ghost use Rattle.swp08_messages.specs.declared.message.Message.{Message};
ghost use Rattle.swp08_messages.specs.declared.fault.ReadFault.{ReadFault};
ghost use Rattle.swp08_messages.specs.Text.{text, InRange, max_len};
ghost use Rattle.swp08_messages.specs.Spelled.{Spells};
ghost use Rattle.swp08_messages.specs.Refused.{IsRefused};
ghost use Rattle.swp08_messages.specs.Laws.{SpellsOne, IsRefusedOnce, DataOfOnePage};
ghost use Rattle.swp08_messages.specs.Dump.{Page, IsPage, page_text, max_dump_len};

use crate::message::Message;

/// The canonical DATA of a message spells it and no other, no DATA spells two messages, and the canonical DATA of two
/// messages differ.
pub fn one_message()
    ensures own { (message : Message) → InRange message → Spells (text message) message }
    ensures one { SpellsOne }
    ensures texts { (m n : Message) → InRange m → InRange n → m ≢ n → text m ≢ text n }
{}

/// DATA spells a message or is refused, never both, and is refused with one fault.
pub fn one_reading(bytes: &[u8])
    ensures some { ((message : Message) × Spells bytes.now message)
        ⊎ ((fault : ReadFault) × IsRefused bytes.now fault) }
    ensures not_both { (message : Message) (fault : ReadFault)
        → Spells bytes.now message → IsRefused bytes.now fault → ⊥ }
    ensures one { IsRefusedOnce bytes.now }
{
    let _ = Message::read(bytes);
}

/// Canonical DATA has 1 to 8 bytes, and each of them fits a byte where the message is in its ranges.
pub fn text_bytes()
    ensures some { (message : Message) → 1 ≤ length (text message) }
    ensures most { (message : Message) → length (text message) ≤ max_len }
    ensures max_len { Message.MAX_LEN ≡ max_len }
    ensures bytes { (message : Message) → InRange message → All (λ b. b < 256) (text message) }
{}

/// The DATA of a page of a dump have 5 bytes and 2 for each destination, at most 133, each of which fits a byte, and no two
/// pages have the same.
pub fn one_page()
    ensures len { (page : Page) → length (page_text page) ≡ 5 + 2 * length page.sources }
    ensures most { (page : Page) → IsPage page → length (page_text page) ≤ max_dump_len }
    ensures bytes { (page : Page) → IsPage page → All (λ b. b < 256) (page_text page) }
    ensures one { DataOfOnePage }
{}
