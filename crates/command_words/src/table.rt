//! The table of commands, and what words ask for.

ghost use Rattle.std.specs.Prelude.{◌≡◌, ◌↔◌, IfErr, IfOk, IsSomeAnd, IsTrue, MatchOption};
ghost use Rattle.std.specs.Prelude.{Some, false, find, map, option_map, true};
ghost use Rattle.std.specs.Str.{bytes_eq};
ghost use Rattle.command_words.specs.ClapForms.{ClapTakes};
ghost use Rattle.command_words.specs.ReadTable.{AsksSo, line_as, line_of_name};
ghost use Rattle.command_words.specs.Table.{Line as Lines, AskNone, AskOne};
ghost use Rattle.command_words.specs.Words.{texts};

use crate::clap_forms::parse;
use crate::parts::{Last, Part, can_say};
use std::alloc::{AllocError, Global};

/// A line of the table: a command and its form.
pub struct Line<V> {
    pub verb: V,
    /// The first word.
    pub name: &'static str,
    pub parts: &'static [Part],
    pub last: Last,
    /// What the usage line calls the words behind the first.
    pub words: &'static [&'static str],
    /// It waits for nobody.
    pub is_quiet: bool,
}

impl<V> Line<V> {
    // Whether it is quiet, or waits, as is asked.
    fn is_quiet_as(&self, is_quiet: bool) -> bool
        ensures { IsTrue result ↔ (self.now.is_quiet ≡ is_quiet) }
    {
        self.is_quiet == is_quiet
    }
}

/// What words ask for: a command, and the words behind its name, which its form takes.
#[derive(Clone, Copy, Debug)]
pub struct Asked<'a, V> {
    pub verb: V,
    pub behind: &'a [String],
}

/// The quiet command that words ask for, `None` if they ask for none. Memory runs out only if they ask for one: `clap` reads the
/// words behind the program's own tests.
pub fn read_quiet<'a, V: Copy>(
    alloc: Global,
    lines: &[Line<V>],
    words: &'a [String],
) -> Result<Option<Asked<'a, V>>, AllocError>
    requires { ClapTakes (map line_as lines.now) }
    ensures read { IfOk result (λ read. MatchOption read
        (AskNone (map line_as lines.now) true (texts words.now))
        (λ asked. AsksSo (map line_as lines.now) true (texts words.now) asked)) }
    ensures no_memory { IfErr result (λ _. AskOne (map line_as lines.now) true (texts words.now)) }
{
    let Some(asked) = read_form(lines, words, true) else {
        return Ok(None);
    };
    match parse(alloc, lines, words) {
        Ok(matches) => Ok(asked_by_name(lines, matches.subcommand_name(), asked.behind)),
        // It refuses no words that have a form, so that memory ran out.
        Err(_) => Err(AllocError),
    }
}

// What is asked for by the command of this name, with these words behind it.
fn asked_by_name<'a, V: Copy>(
    lines: &[Line<V>],
    name: Option<&str>,
    behind: &'a [String],
) -> Option<Asked<'a, V>>
    ensures { (line : Lines V) → line_of_name (map line_as lines.now) name.entry ≡ Some line
        → IsSomeAnd result
        (λ asked. (asked.verb ≡ line.verb) × (asked.behind ≡ behind.entry)) }
{
    let name = name?;
    let line = line_named(lines, name)?;
    Some(Asked {
        verb: line.verb,
        behind,
    })
}

/// The command that waits for others and that words ask for, `None` if they ask for none. It takes no memory.
pub fn read_waiting<'a, V: Copy>(lines: &[Line<V>], words: &'a [String]) -> Option<Asked<'a, V>>
    ensures { MatchOption result
        (AskNone (map line_as lines.now) false (texts words.now))
        (λ asked. AsksSo (map line_as lines.now) false (texts words.now) asked) }
{
    read_form(lines, words, false)
}

// The command of the quiet ones, or of those that wait, that words ask for.
fn read_form<'a, V: Copy>(
    lines: &[Line<V>],
    words: &'a [String],
    is_quiet: bool,
) -> Option<Asked<'a, V>>
    ensures { MatchOption result
        (AskNone (map line_as lines.now) is_quiet (texts words.now))
        (λ asked. AsksSo (map line_as lines.now) is_quiet (texts words.now) asked) }
{
    let [first, behind @ ..] = words else {
        return None;
    };
    let line = line_named(lines, first.as_str())?;
    if !line.is_quiet_as(is_quiet) {
        return None;
    }
    if !can_say(line.parts, line.last, behind) {
        return None;
    }
    Some(Asked {
        verb: line.verb,
        behind,
    })
}

// The line of the command of this name, the first of them.
fn line_named<'t, V>(lines: &'t [Line<V>], name: &str) -> Option<&'t Line<V>>
    ensures { option_map (λ line. line.now) result
        ≡ find (λ line. bytes_eq line.name.now name.now) lines.now }
{
    lines.iter().find(|line| line.name == name)
}
