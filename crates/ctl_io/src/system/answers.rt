//! What the adapters answer for an answer of the system.

ghost use Rattle.std.specs.Prelude.{◌≡◌, ◌≢◌, ◌<◌, IfOk, OnOk, OnErr, IfErr};
ghost use Rattle.std.specs.IoError.{error_kind};
ghost use Rattle.ctl_io.specs.Faults.{count_after};
ghost use Rattle.ctl_io.specs.Files.{find_failed, make_failed};
ghost use Rattle.ctl_io.specs.Disk.{did_fail};
ghost use Rattle.ctl_io.specs.Source.{read_failed};
ghost use Rattle.ctl_io.specs.Sink.{write_failed};

use crate::{Did, FaultCount, Found, Made, Read, Write};
use std::io::{self, ErrorKind};

/// A read that gives no bytes is at the end, and an error is a fault.
pub(crate) fn read_answer(read: io::Result<usize>, faults: &mut FaultCount) -> Read
    ensures got { IfOk read (λ n. 0 < n → result ≡ Read.Got n) }
    ensures end { IfOk read (λ n. n ≡ 0 → result ≡ Read.End) }
    ensures failed { OnErr read (result ≡ Read.Failed) }
    ensures count { faults.new ≡ count_after (read_failed result) faults.old }
{
    match read {
        Ok(0) => Read::End,
        Ok(n) => Read::Got(n),
        Err(_) => {
            faults.raise();
            Read::Failed
        }
    }
}

/// A write that takes no bytes, and an error, is a fault.
pub fn write_answer(written: io::Result<usize>, faults: &mut FaultCount) -> Write
    ensures took { IfOk written (λ n. 0 < n → result ≡ Write.Took n) }
    ensures none { IfOk written (λ n. n ≡ 0 → result ≡ Write.Failed) }
    ensures failed { OnErr written (result ≡ Write.Failed) }
    ensures count { faults.new ≡ count_after (write_failed result) faults.old }
{
    match written {
        Ok(0) | Err(_) => {
            faults.raise();
            Write::Failed
        }
        Ok(n) => Write::Took(n),
    }
}

/// A file that isn't found is missing, and every other error is a fault.
pub(crate) fn found_answer<F>(opened: io::Result<F>, faults: &mut FaultCount) -> Found<F>
    ensures here { IfOk opened (λ file. result ≡ Found.Here file) }
    ensures missing { IfErr opened (λ error.
        error_kind error ≡ ErrorKind.NotFound → result ≡ Found.Missing) }
    ensures failed { IfErr opened (λ error.
        error_kind error ≢ ErrorKind.NotFound → result ≡ Found.Failed) }
    ensures count { faults.new ≡ count_after (find_failed result) faults.old }
{
    match opened {
        Ok(file) => Found::Here(file),
        Err(error) if error.kind() == ErrorKind::NotFound => Found::Missing,
        Err(_) => {
            faults.raise();
            Found::Failed
        }
    }
}

/// A file that can't be made is a fault.
pub(crate) fn made_answer<F>(created: io::Result<F>, faults: &mut FaultCount) -> Made<F>
    ensures here { IfOk created (λ file. result ≡ Made.Here file) }
    ensures failed { OnErr created (result ≡ Made.Failed) }
    ensures count { faults.new ≡ count_after (make_failed result) faults.old }
{
    match created {
        Ok(file) => Made::Here(file),
        Err(_) => {
            faults.raise();
            Made::Failed
        }
    }
}

/// A call of a disk that the system didn't make is a fault.
pub(crate) fn did_answer(made: io::Result<()>, faults: &mut FaultCount) -> Did
    ensures done { OnOk made (result ≡ Did.Done) }
    ensures failed { OnErr made (result ≡ Did.Failed) }
    ensures count { faults.new ≡ count_after (did_fail result) faults.old }
{
    match made {
        Ok(()) => Did::Done,
        Err(_) => {
            faults.raise();
            Did::Failed
        }
    }
}
