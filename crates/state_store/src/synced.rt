//! A write that lasts.

ghost use Rattle.std.specs.Prelude.{◌≡◌, ◌+◌, ◌≤◌, length};
ghost use Rattle.ctl_io.specs.Crash.{LeavesOnly, LeavesShown};
ghost use Rattle.ctl_io.specs.Disk.{did_fail, shown_with, Torn, ShowsTorn};
ghost use Rattle.ctl_io.specs.Faults.{count_after};
ghost use Rattle.state_store.specs.Steps.{IsFrom};

use ctl_io::{Did, Disk};

// Writes the bytes and sees that they last. Until then a crash leaves any bytes in their range.
pub(crate) fn write_synced<D: Disk>(disk: &mut D, at: u64, bytes: &[u8]) -> Did
    requires range { at + length bytes.now ≤ D.size disk.old }
    requires lasts { LeavesShown (D.contents disk.old) (D.may_leave disk.old) }
    ensures written { result ≡ Did.Done →
        D.contents disk.new ≡ shown_with at bytes.now (D.contents disk.old) }
    ensures lasts { result ≡ Did.Done →
        LeavesShown (D.contents disk.new) (D.may_leave disk.new) }
    ensures any_moment { LeavesOnly D.moment D.left_since disk.old disk.new
        (IsFrom (Torn at (length bytes.now)) (D.contents disk.old)) }
    ensures size { D.size disk.new ≡ D.size disk.old }
    ensures name { D.name disk.new ≡ D.name disk.old }
    ensures count { D.faults disk.new ≡ count_after (did_fail result) (D.faults disk.old) }
{
    match disk.write(at, bytes) {
        Did::Done => disk.sync(),
        Did::Failed => Did::Failed,
    }
}
