//! The drive that words ask for.

ghost use Rattle.std.specs.Prelude.{◌≤◌};
ghost use Rattle.command_words.specs.Words.{texts};
ghost use Rattle.command_words.specs.Parts.{NoMore};
ghost use Rattle.command_rows.specs.Opener.{SaySome};
ghost use Rattle.command_drive.specs.DriveRow.{parts};
ghost use Rattle.command_drive.specs.DriveInside.{AskFor};

use command_rows::said_number;

/// What a drive is asked to be.
#[derive(Clone, Copy, Debug, PartialEq, Eq)]
pub(crate) struct Asked {
    /// The wants are made from this number alone: 0 to 4,294,967,295.
    pub(crate) number: u64,
    /// How many there are, 1 to 100,000.
    pub(crate) wants: u64,
}

// The drive that two words ask for.
pub(crate) fn asked_by(words: &[String]) -> Asked
    requires { SaySome parts NoMore (texts words.now) }
    ensures drive { AskFor (texts words.now) result }
    ensures number { result.number ≤ 4294967295 }
    ensures wants { result.wants ≤ 100000 }
{
    let [number, wants] = words else {
        unreachable!();
    };
    Asked {
        number: said_number(number.as_str()),
        wants: said_number(wants.as_str()),
    }
}
