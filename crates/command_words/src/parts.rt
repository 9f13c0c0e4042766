//! The parts of a form, and whether words say something of them.

ghost use Rattle.std.specs.Prelude.{◌↔◌, ◌≡◌, ℕ, IfSome, IsTrue, Some, map};
ghost use Rattle.command_words.specs.Parts.{Prefix, Said, Says, least_of, number_behind};
ghost use Rattle.command_words.specs.ReadParts.{CanSay, CanSayLast, SayBehind, last_as, low_as};
ghost use Rattle.command_words.specs.ReadParts.{part_as};
ghost use Rattle.command_words.specs.Words.{IsFileName, texts};

use crate::names::{are_names, is_name, name_traces, read_number};

/// A kind of files that are read whole.
#[derive(Clone, Copy, Debug, PartialEq, Eq)]
pub struct FileKind {
    /// What the line calls a file that is too long.
    pub word: &'static str,
    /// The most bytes.
    pub longest: u64,
}

/// The least of a number.
#[derive(Clone, Copy, Debug, PartialEq, Eq)]
pub enum Low {
    AtLeast(u64),
    /// The number that stands before it.
    AsBefore,
}

impl Low {
    // The least that a number may be, if this one stands before it.
    fn least(self, before: u64) -> u64
        ensures { result ≡ least_of (low_as self) before }
    {
        match self {
            Low::AtLeast(least) => least,
            Low::AsBefore => before,
        }
    }
}

/// A part of a form, of which one word speaks.
#[derive(Clone, Copy, Debug, PartialEq, Eq)]
pub enum Part {
    Plant,
    /// A file that is read whole.
    Whole(FileKind),
    /// A file that is made.
    Made,
    /// A store, of the plant before it.
    Store,
    /// A file that the command itself reads whole, behind what it opens before.
    Later(FileKind),
    /// A number, and the most that it may be.
    Number(Low, u64),
}

/// What stands behind the parts.
#[derive(Clone, Copy, Debug, PartialEq, Eq)]
pub enum Last {
    NoMore,
    /// 1 to 200 files that are read whole.
    Wholes(FileKind),
    /// A name, or none.
    Prefix,
}

// Whether words say something of the parts, one word each, and of what stands behind them.
pub(crate) fn can_say(parts: &[Part], last: Last, words: &[String]) -> bool
    ensures { IsTrue result ↔ CanSay 0 (map part_as parts.now) (last_as last) (texts words.now) }
{
    let mut before = 0;
    for (index, part) in parts.iter().enumerate() {
        let Some(word) = words.get(index) else {
            return false;
        };
        let Some(number) = say_part(before, *part, word.as_str()) else {
            return false;
        };
        before = number;
    }
    can_say_last(last, &words[parts.len()..])
}

// The number that stands before the next part, if a word says something of this one.
fn say_part(before: u64, part: Part, word: &str) -> Option<u64>
    ensures found { IfSome result (SayBehind before (part_as part) word.now) }
    ensures only { (said : Said (part_as part)) → Says before (part_as part) word.now said
        → result ≡ Some (number_behind before (part_as part) said) }
{
    match part {
        Part::Number(low, most) => read_number(word, low.least(before), most),
        Part::Plant => say_name(before, word),
        Part::Whole(_) => say_name(before, word),
        Part::Made => say_name(before, word),
        Part::Store => say_name(before, word),
        Part::Later(_) => say_name(before, word),
    }
}

// This number, if a word is a name.
fn say_name(before: u64, word: &str) -> Option<u64>
    ensures found { IfSome result (λ number. (number ≡ before) × IsFileName word.now) }
    ensures only { IsFileName word.now → result ≡ Some before }
{
    if is_name(word) { Some(before) } else { None }
}

// Whether words say something behind the parts.
fn can_say_last(last: Last, words: &[String]) -> bool
    ensures { IsTrue result ↔ CanSayLast (last_as last) (texts words.now) }
{
    match last {
        Last::NoMore => words.is_empty(),
        Last::Wholes(_) => name_traces(words),
        Last::Prefix => are_few_names(words),
    }
}

// Whether there is a name, or no word.
fn are_few_names(words: &[String]) -> bool
    ensures { IsTrue result ↔ CanSayLast Prefix (texts words.now) }
{
    words.len() <= 1 && are_names(words)
}
