//! What is written in parts.

ghost use Rattle.std.specs.Prelude.{◌≡◌, ◌++◌, not, decimal};
ghost use Rattle.std.specs.Bool.{OnTrue, OnFalse};
ghost use Rattle.ctl_io.specs.Faults.{count_after};
ghost use Rattle.ctl_io.specs.Sink.{appended, AppendsPart};

use ctl_io::{Sink, write_all};
use itoa::Buffer;

/// Appends a number in decimal between two parts, and answers whether it could.
pub fn write_number<K: Sink>(out: &mut K, front: &[u8], number: u64, end: &[u8]) -> bool
    ensures all { OnTrue result (K.written out.new
        ≡ appended (K.written out.old) (front.now ++ decimal number ++ end.now)) }
    ensures front { OnFalse result (AppendsPart (front.now ++ decimal number ++ end.now)
        (K.written out.old) (K.written out.new)) }
    ensures count { K.faults out.new ≡ count_after (not result) (K.faults out.old) }
{
    let mut buffer = Buffer::new();
    let digits = buffer.format(number).as_bytes();
    write_parts(out, front, digits, end)
}

/// Appends these parts one after the other, and answers whether it could.
// kit: `a && b && c` over one sink loses the clauses of its arms; so each function has one `&&`.
pub fn write_parts<K: Sink>(out: &mut K, front: &[u8], middle: &[u8], end: &[u8]) -> bool
    ensures all { OnTrue result
        (K.written out.new ≡ appended (K.written out.old) (front.now ++ middle.now ++ end.now)) }
    ensures front { OnFalse result
        (AppendsPart (front.now ++ middle.now ++ end.now) (K.written out.old) (K.written out.new)) }
    ensures count { K.faults out.new ≡ count_after (not result) (K.faults out.old) }
{
    write_pair(out, front, middle) && write_all(out, end)
}

/// Appends two parts one after the other, and answers whether it could.
pub fn write_pair<K: Sink>(out: &mut K, front: &[u8], end: &[u8]) -> bool
    ensures all { OnTrue result
        (K.written out.new ≡ appended (K.written out.old) (front.now ++ end.now)) }
    ensures front { OnFalse result
        (AppendsPart (front.now ++ end.now) (K.written out.old) (K.written out.new)) }
    ensures count { K.faults out.new ≡ count_after (not result) (K.faults out.old) }
{
    write_all(out, front) && write_all(out, end)
}
