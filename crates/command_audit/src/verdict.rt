//! The verdict of an audit: its exit status and its line.

ghost use Rattle.std.specs.Prelude.{◌≡◌, not};
ghost use Rattle.std.specs.Bool.{OnTrue, OnFalse};
ghost use Rattle.ctl_io.specs.Faults.{count_after};
ghost use Rattle.ctl_io.specs.Sink.{appended, AppendsPart};
ghost use Rattle.command_rows.specs.StopInside.{number_of};
ghost use Rattle.command_audit.specs.Verdict.{differs_at, verdict_line, verdict_status};
ghost use Rattle.command_audit.specs.VerdictInside.{replies_text};

use command_rows::{Status, write_number, write_parts};
use ctl_io::{Sink, write_all};
use trace_audit::Verdict;

// The status of an audit with this verdict.
pub(crate) fn status_of(verdict: &Verdict) -> Status
    ensures { number_of result ≡ verdict_status verdict.now }
{
    match verdict {
        Verdict::Confirmed(_) => Status::Done,
        Verdict::BadLine(_) => Status::Refused,
        Verdict::Gap(_) | Verdict::Repeat(_) | Verdict::Differs { .. } => Status::Finding,
    }
}

// Appends the line of a verdict, and answers whether it could.
pub(crate) fn write_verdict<K: Sink>(out: &mut K, verdict: &Verdict) -> bool
    ensures all { OnTrue result
        (K.written out.new ≡ appended (K.written out.old) (verdict_line verdict.now)) }
    ensures front { OnFalse result
        (AppendsPart (verdict_line verdict.now) (K.written out.old) (K.written out.new)) }
    ensures count { K.faults out.new ≡ count_after (not result) (K.faults out.old) }
{
    match verdict {
        Verdict::Confirmed(count) => write_number(out, b"confirmed ", *count, b"\n"),
        Verdict::BadLine(number) => write_number(out, b"trace line ", *number, b" refused\n"),
        Verdict::Gap(position) => write_number(out, b"gap at ", *position, b"\n"),
        Verdict::Repeat(position) => write_number(out, b"repeat at ", *position, b"\n"),
        Verdict::Differs {
            position,
            kept,
            wanted,
        } => write_difference(out, *position, kept.as_slice(), wanted.as_slice()),
    }
}

// Appends the line of a reply that differs, and answers whether it could.
fn write_difference<K: Sink>(out: &mut K, position: u64, kept: &[u8], wanted: &[u8]) -> bool
    ensures all { OnTrue result (K.written out.new
        ≡ appended (K.written out.old) (differs_at position kept.now wanted.now)) }
    ensures front { OnFalse result (AppendsPart (differs_at position kept.now wanted.now)
        (K.written out.old) (K.written out.new)) }
    ensures count { K.faults out.new ≡ count_after (not result) (K.faults out.old) }
{
    write_number(out, b"differs at ", position, b": kept ") && write_replies(out, kept, wanted)
}

// Appends what stands of the two replies in that line, and answers whether it could.
fn write_replies<K: Sink>(out: &mut K, kept: &[u8], wanted: &[u8]) -> bool
    ensures all { OnTrue result (K.written out.new
        ≡ appended (K.written out.old) (replies_text kept.now wanted.now)) }
    ensures front { OnFalse result (AppendsPart (replies_text kept.now wanted.now)
        (K.written out.old) (K.written out.new)) }
    ensures count { K.faults out.new ≡ count_after (not result) (K.faults out.old) }
{
    write_parts(out, kept, b" wanted ", wanted) && write_all(out, b"\n")
}
