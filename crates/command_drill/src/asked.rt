//! The drill that words ask for.

ghost use Rattle.std.specs.Prelude.{◌≤◌};
ghost use Rattle.command_words.specs.Words.{texts};
ghost use Rattle.command_words.specs.Parts.{NoMore};
ghost use Rattle.command_rows.specs.Opener.{SaySome};
ghost use Rattle.command_drill.specs.Drill.{parts};
ghost use Rattle.command_drill.specs.DrillInside.{AskFor};

use command_rows::said_number;

/// What a drill is asked to be.
#[derive(Clone, Copy, Debug, PartialEq, Eq)]
pub(crate) struct Drill {
    /// It is made from this number alone: 0 to 4,294,967,295.
    pub(crate) number: u64,
    /// 1 to 16.
    pub(crate) panels: u32,
    /// Those of all panels together, one for each at least and 200,000 at most. Where they don't come out even, the rest is
    /// left out.
    pub(crate) messages: u64,
}

// The drill that three words ask for.
pub(crate) fn asked(words: &[String]) -> Drill
    requires { SaySome parts NoMore (texts words.now) }
    ensures drill { AskFor (texts words.now) result }
    ensures some { 1 ≤ result.panels }
    ensures few { result.panels ≤ 16 }
    ensures messages { result.messages ≤ 200000 }
{
    let [number, panels, messages] = words else {
        unreachable!();
    };
    Drill {
        number: said_number(number.as_str()),
        panels: said_number(panels.as_str()) as u32,
        messages: said_number(messages.as_str()),
    }
}
