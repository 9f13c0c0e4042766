//! What `clap` is told of the forms of the quiet commands, and what it makes of words.

ghost use Rattle.std.specs.Prelude.{◌≡◌, IfOk, MatchResult, Some, map, true};
ghost use Rattle.clap.specs.Words.{App, Rule, kind_of, subcommand_name_of, with_rule};
ghost use Rattle.clap.specs.Words.{with_subcommand};
ghost use Rattle.command_words.specs.ClapForms.{ClapTakes, app_of_line, program, rule_for};
ghost use Rattle.command_words.specs.ReadTable.{line_as};
ghost use Rattle.command_words.specs.Table.{AskOne};
ghost use Rattle.command_words.specs.Words.{texts};
ghost use Rattle.command_words.specs.WordsInside.{IsArg, IsForm};

use crate::names::MAX_TRACES;
use crate::table::Line;
use clap::error::ErrorKind;
use clap::{Arg, ArgMatches};
use std::alloc::{AllocError, Global};

// What `clap` makes of words that ask for a quiet command. It refuses no such words, but for want of memory.
pub(crate) fn parse<'a, V>(
    alloc: Global,
    lines: &[Line<V>],
    words: &'a [String],
) -> Result<ArgMatches<'a>, clap::Error>
    requires { ClapTakes (map line_as lines.now) }
    ensures { (one : AskOne (map line_as lines.now) true (texts words.now)) → MatchResult result
        (λ matches. subcommand_name_of matches ≡ Some one.line.name)
        (λ error. kind_of error ≡ ErrorKind.OutOfMemory) }
{
    let program = forms(alloc, lines)?;
    program.try_get_matches_from(words)
}

// The forms of the quiet commands, for `clap`. The words are without the program's name.
fn forms<'a, V>(alloc: Global, lines: &[Line<V>]) -> Result<clap::Command<'a>, AllocError>
    ensures { IfOk result (IsForm (program (map line_as lines.now))) }
{
    let mut program = Ok(clap::Command::new(alloc, "plantctl").no_binary_name(true));
    for line in lines {
        if line.is_quiet {
            program = with_form(program, clap_form(alloc, line));
        }
    }
    program
}

// The command with one more form, if both were made.
pub(crate) fn with_form<'a>(
    others: Result<clap::Command<'a>, AllocError>,
    form: Result<clap::Command<'a>, AllocError>,
) -> Result<clap::Command<'a>, AllocError>
    ensures { (app own : App) → IfOk others.entry (IsForm app) → IfOk form.entry (IsForm own)
        → IfOk result (IsForm (with_subcommand app own.top)) }
{
    let command = others?;
    let more = form?;
    command.subcommand(more)
}

// The form of one line: a word for each part, and several behind them.
fn clap_form<'a, V>(alloc: Global, line: &Line<V>) -> Result<clap::Command<'a>, AllocError>
    ensures { IfOk result (IsForm (app_of_line (line_as line.now))) }
{
    let mut form = Ok(clap::Command::new(alloc, line.name));
    for (index, name) in line.words.iter().enumerate() {
        form = with_word(form, argument(alloc, name, index < line.parts.len()));
    }
    form
}

// The form with one more argument, if it was made.
fn with_word<'a>(
    form: Result<clap::Command<'a>, AllocError>,
    argument: Arg<'a>,
) -> Result<clap::Command<'a>, AllocError>
    ensures { (app : App) (rule : Rule) → IfOk form.entry (IsForm app)
        → IsArg rule argument.entry → IfOk result (IsForm (with_rule app rule)) }
{
    let command = form?;
    command.arg(argument)
}

// One word, or several.
fn argument<'a>(alloc: Global, name: &'a str, is_one: bool) -> Arg<'a>
    ensures { IsArg (rule_for is_one name.now) result }
{
    let word = Arg::new(alloc, name).required(true);
    if is_one {
        word
    } else {
        word.num_args(1..=MAX_TRACES)
    }
}
