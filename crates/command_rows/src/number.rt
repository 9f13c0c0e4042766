//! Numbers that words say.

ghost use Rattle.std.specs.Prelude.{◌≡◌, ℕ};
ghost use Rattle.command_words.specs.Words.{SaysNumber};
ghost use Rattle.command_rows.specs.Opener.{SaysOne};

use line_text::read_decimal;

/// The number that a word says.
pub fn said_number(word: &str) -> u64
    requires { SaysOne word.now }
    ensures { (least most number : ℕ) → SaysNumber least most word.now number
        → result ≡ number }
{
    let Some(number) = read_decimal(word.as_bytes()) else {
        unreachable!();
    };
    number
}
