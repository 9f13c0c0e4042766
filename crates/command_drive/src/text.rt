//! What a drive came to, in lines.

ghost use Rattle.std.specs.Prelude.{◌≡◌, IfOk, string_bytes};
ghost use Rattle.command_drive.specs.DriveRow.{drive_lines};

use std::alloc::{AllocError, Global};

/// What a drive came to, in numbers.
#[derive(Clone, Copy, Debug, PartialEq, Eq)]
pub(crate) struct Counts {
    /// How many wants there were.
    pub(crate) wants: u64,
    /// How many messages were sent to the frame, lost ones too.
    pub(crate) sent: u32,
    /// How many destinations are settled, and at how many of these the frame agrees.
    pub(crate) settled: u32,
    pub(crate) agree: u32,
}

// The lines on a drive.
pub(crate) fn drive_lines(alloc: Global, counts: &Counts) -> Result<String, AllocError>
    ensures { IfOk result (λ text. string_bytes text ≡ drive_lines counts.now.wants
        counts.now.sent counts.now.settled counts.now.agree) }
{
    let (wants, sent) = (counts.wants, counts.sent);
    let (settled, agree) = (counts.settled, counts.agree);
    format!(in alloc; "wants {wants}\nsent {sent}\nsettled {settled}\nagree {agree}\n")
}
