//! What the system answered to a read of a connection, as links answer it.

ghost use Rattle.std.specs.Prelude.{◌≡◌, ◌≢◌, ◌<◌, IfOk, IfErr};
ghost use Rattle.std.specs.IoError.{error_kind};
ghost use Rattle.ctl_io.specs.Faults.{count_after};
ghost use Rattle.ctl_net.specs.Link.{link_read_failed, was_idle};

use crate::LinkRead;
use ctl_io::FaultCount;
use std::io::{self, ErrorKind};

/// A read that gives no bytes is at the end, one that waited as long as it may is idle, and every other error is a fault.
pub(crate) fn link_answer(
    read: io::Result<usize>,
    faults: &mut FaultCount,
    idles: &mut FaultCount,
) -> LinkRead
    ensures got { IfOk read (λ n. 0 < n → result ≡ LinkRead.Got n) }
    ensures end { IfOk read (λ n. n ≡ 0 → result ≡ LinkRead.End) }
    ensures idle { IfErr read (λ error.
        error_kind error ≡ ErrorKind.WouldBlock → result ≡ LinkRead.Idle) }
    ensures timed_out { IfErr read (λ error.
        error_kind error ≡ ErrorKind.TimedOut → result ≡ LinkRead.Idle) }
    ensures failed { IfErr read (λ error. error_kind error ≢ ErrorKind.WouldBlock
        → error_kind error ≢ ErrorKind.TimedOut → result ≡ LinkRead.Failed) }
    ensures count { faults.new ≡ count_after (link_read_failed result) faults.old }
    ensures idles { idles.new ≡ count_after (was_idle result) idles.old }
{
    match read {
        Ok(0) => LinkRead::End,
        Ok(n) => LinkRead::Got(n),
        Err(error) => match error.kind() {
            ErrorKind::WouldBlock | ErrorKind::TimedOut => {
                idles.raise();
                LinkRead::Idle
            }
            _ => {
                faults.raise();
                LinkRead::Failed
            }
        },
    }
}
