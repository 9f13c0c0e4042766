//! The exit statuses.

ghost use Rattle.std.specs.Prelude.{◌≡◌};
ghost use Rattle.std.specs.Bool.{OnTrue, OnFalse};
ghost use Rattle.command_rows.specs.declared.status.Status.TheVariants.{Output};
ghost use Rattle.command_rows.specs.StopInside.{number_of};

/// An exit status.
#[derive(Clone, Copy, Debug, PartialEq, Eq)]
pub enum Status {
    Done = 0,
    NoMemory = 1,
    /// The words have no form.
    Usage = 2,
    /// A file is missing, or the files had a fault.
    File = 3,
    /// The plant file has a fault or is too long.
    Plant = 4,
    /// A line of a file that was read whole has no form, or such a file is too long.
    Refused = 5,
    /// The audit found a gap, a repeat or a difference.
    Finding = 6,
    /// A write of the output failed.
    Output = 7,
    /// The net refused an opening, or something that it handed out failed.
    Net = 8,
    /// A session, or the worker of the displays, ended by a limit.
    Limits = 9,
}

impl Status {
    /// Its number.
    pub fn number(self) -> u8
        ensures { result ≡ number_of self }
    {
        self as u8
    }

    /// This status, or the output's where its text wasn't written.
    pub fn if_written(self, written: bool) -> Status
        ensures written { OnTrue written (result ≡ self) }
        ensures unwritten { OnFalse written (result ≡ Output) }
    {
        if written { self } else { Status::Output }
    }
}
