//! Words that are names, and words that say numbers.

ghost use Rattle.std.specs.Prelude.{◌≡◌, ◌↔◌, ℕ, All, IfSome, IsTrue, Some};
ghost use Rattle.command_words.specs.Words.{IsFileName, NameTraces, SaysNumber, texts};

use line_text::read_decimal;

// No word that names something begins with it.
const DASH: u8 = b'-';

// The most digits of a word that says a number.
const MAX_DIGITS: usize = 10;

// The most traces of an audit.
pub(crate) const MAX_TRACES: usize = 200;

// Whether words name traces: there are 1 to 200 of them, and each is a name.
pub(crate) fn name_traces(words: &[String]) -> bool
    ensures { IsTrue result ↔ NameTraces (texts words.now) }
{
    1 <= words.len() && words.len() <= MAX_TRACES && are_names(words)
}

// Whether each word names something.
pub(crate) fn are_names(words: &[String]) -> bool
    ensures { IsTrue result ↔ All IsFileName (texts words.now) }
{
    for word in words {
        if !is_name(word.as_str()) {
            return false;
        }
    }
    true
}

// Whether a word names something: it isn't empty and doesn't begin with a dash.
pub(crate) fn is_name(word: &str) -> bool
    ensures { IsTrue result ↔ IsFileName word.now }
{
    match word.as_bytes() {
        [] => false,
        [first, ..] => *first != DASH,
    }
}

// The number that a word says, `None` where it says none between these two.
pub(crate) fn read_number(word: &str, least: u64, most: u64) -> Option<u64>
    ensures found { IfSome result (λ number. SaysNumber least most word.now number) }
    ensures only { (number : ℕ) → SaysNumber least most word.now number
        → result ≡ Some number }
{
    let digits = word.as_bytes();
    if digits.len() > MAX_DIGITS {
        return None;
    }
    let number = read_decimal(digits)?;
    if least <= number && number <= most {
        Some(number)
    } else {
        None
    }
}
