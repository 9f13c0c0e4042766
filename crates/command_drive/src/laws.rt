//! What is true of every drive, and what the status of a run tells, as laws over the ends of its row.

ghost use Rattle.std.specs.Prelude.{[], ◌∷◌};
ghost use Rattle.command_words.specs.Parts.{NoMore};
ghost use Rattle.command_rows.specs.Sound.{IsSound};
ghost use Rattle.command_drive.specs.DriveRow.{DriveRow, parts};
ghost use Rattle.command_drive.specs.DriveLaws.{DrivesAreRuns, EndsAreOne};
ghost use Rattle.command_drive.specs.Laws.{DriveEndsWithZero, DrivesLeaveFiles, ZeroHasDriven};

/// A drive is a run of a driver, a line and a frame, of which each step may happen by itself: each message that is lost was
/// put on its way, and is lost behind that.
pub fn drives_are_runs()
    ensures { DrivesAreRuns }
{}

/// The drive of a number and a count of wants has one end.
pub fn ends_are_one()
    ensures { EndsAreOne }
{}

/// Status 0: exactly the lines of the drive were appended, and the frame has every crosspoint that the driver counts as settled.
/// A drive always ends with 0, but for want of memory and a write that failed; and the files are left alone.
pub fn drives()
    ensures sound { IsSound parts NoMore DriveRow (0 ∷ 1 ∷ []) }
    ensures done { ZeroHasDriven }
    ensures always { DriveEndsWithZero }
    ensures files { DrivesLeaveFiles }
{}
