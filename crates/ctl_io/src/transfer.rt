//! Sinks written and sources read as a whole.

ghost use Rattle.std.specs.Prelude.{◌≡◌, ◌+◌, ◌-◌, ◌<◌, ◌≤◌, min, max, not, [], length, take};
ghost use Rattle.std.specs.Prelude.{false, IfOk, OnOk, OnErr, IsErrOf, IsTrue, vec_capacity};
ghost use Rattle.std.specs.Bool.{OnFalse, OnTrue};
ghost use Rattle.ctl_io.specs.Faults.{count_after};
ghost use Rattle.ctl_io.specs.Sink.{appended, AppendsPart};
ghost use Rattle.ctl_io.specs.Source.{got, read_failed, AreLeft, IsWithin, IsAtEnd};
ghost use Rattle.ctl_io.specs.Source.{TakesAtMost, TakesJust};
ghost use Rattle.ctl_io.specs.SourceInside.{Takes, TakesPiece};
ghost use Rattle.ctl_io.specs.WholeFile.{whole_failed};
ghost use Rattle.ctl_io.specs.declared.transfer.WholeFault.TheVariants.{NoMemory};

use crate::{Read, Sink, Source, Write};
use std::alloc::{AllocError, Global};

/// Appends all the bytes, and answers whether it could. Of no bytes it writes nothing and answers true.
/// Where it answers false, a shorter front of the bytes was appended.
pub fn write_all<K: Sink>(sink: &mut K, bytes: &[u8]) -> bool
    ensures all { OnTrue result (K.written sink.new ≡ appended (K.written sink.old) bytes.now) }
    ensures part { OnFalse result
        (AppendsPart bytes.now (K.written sink.old) (K.written sink.new)) }
    ensures name { K.name sink.new ≡ K.name sink.old }
    ensures read_half { K.read_half sink.new ≡ K.read_half sink.old }
    ensures count { K.faults sink.new ≡ count_after (not result) (K.faults sink.old) }
{
    let mut rest = bytes;
    while !rest.is_empty() {
        match sink.write(rest) {
            Write::Took(n) => rest = &rest[n..],
            Write::Failed => return false,
        }
    }
    true
}

/// Why a source wasn't read whole.
#[derive(Clone, Copy, Debug, PartialEq, Eq)]
pub enum WholeFault {
    NoMemory,
    /// The source had more bytes than the limit.
    TooLong,
    /// A read failed.
    Failed,
}

impl From<AllocError> for WholeFault {
    ghost from_gives = { λ _ fault. fault ≡ NoMemory };

    fn from(_: AllocError) -> Self {
        WholeFault::NoMemory
    }
}

// The most bytes that one read of `read_whole` asks for, and by how many its room grows where more come than the source
// said. So little room stays empty, and where a large block grows the system moves its pages and copies no byte.
const STEP: usize = 64 << 10;

// The most zeros that one call writes. The C library writes so few by vectors, and more by an instruction a byte.
const ZEROS: usize = 2 << 10;

/// All the bytes that the source has left, where these are at most `limit`. Only where it answers `TooLong` it has taken
/// more than that, and then just one byte more.
pub fn read_whole<S: Source>(
    alloc: Global,
    source: &mut S,
    limit: usize,
) -> Result<Vec<u8>, WholeFault>
    ensures whole { IfOk result (λ whole. AreLeft whole.items (S.left source.old)) }
    ensures fits { IfOk result (λ whole. length whole.items ≤ limit) }
    ensures end { OnOk result (IsAtEnd (S.left source.new)) }
    ensures too_long { IsErrOf result WholeFault.TooLong →
        TakesJust (limit + 1) (S.left source.old) (S.left source.new) }
    ensures taken { ¬ IsErrOf result WholeFault.TooLong →
        TakesAtMost limit (S.left source.old) (S.left source.new) }
    ensures name { S.name source.new ≡ S.name source.old }
    ensures count { S.faults source.new
        ≡ count_after (whole_failed result) (S.faults source.old) }
{
    let mut whole = first_room(alloc, source.left_hint(), limit)?;
    if !read_up_to(source, &mut whole, limit)? {
        see_end(source)?;
    }
    Ok(whole)
}

// Reads until the source ends, and answers true, or until there are `limit` bytes, and answers false.
fn read_up_to<S: Source>(
    source: &mut S,
    whole: &mut Vec<u8>,
    limit: usize,
) -> Result<bool, WholeFault>
    requires fits { length whole.old.items ≤ limit }
    ensures taken { OnOk result
        (Takes whole.new.items (S.left source.old) (S.left source.new)) }
    ensures fits { OnOk result (length whole.new.items ≤ limit) }
    ensures end { IfOk result (λ ended. IsTrue ended → IsAtEnd (S.left source.new)) }
    ensures full { IfOk result (λ ended. ended ≡ false → length whole.new.items ≡ limit) }
    ensures most { OnErr result (TakesAtMost limit (S.left source.old) (S.left source.new)) }
    ensures fault { ¬ IsErrOf result WholeFault.TooLong }
    ensures name { S.name source.new ≡ S.name source.old }
    ensures count { S.faults source.new
        ≡ count_after (whole_failed result) (S.faults source.old) }
{
    let mut count = 0;
    while count < limit {
        match read_piece(source, whole, count, limit)? {
            Read::Got(n) => count += n,
            Read::End => {
                whole.truncate(count);
                return Ok(true);
            }
            Read::Failed => return Err(WholeFault::Failed),
        }
    }
    Ok(false)
}

// Reads one byte more, which tells a source that is too long from one that just fits.
fn see_end<S: Source>(source: &mut S) -> Result<(), WholeFault>
    ensures end { OnOk result (IsAtEnd (S.left source.new)) }
    ensures too_long { IsErrOf result WholeFault.TooLong →
        TakesJust 1 (S.left source.old) (S.left source.new) }
    ensures taken { ¬ IsErrOf result WholeFault.TooLong →
        S.left source.new ≡ S.left source.old }
    ensures name { S.name source.new ≡ S.name source.old }
    ensures count { S.faults source.new
        ≡ count_after (whole_failed result) (S.faults source.old) }
{
    match source.read(&mut [0]) {
        Read::Got(_) => Err(WholeFault::TooLong),
        Read::End => Ok(()),
        Read::Failed => Err(WholeFault::Failed),
    }
}

// No bytes, with room for as many as the source likely has and for one more, which shows its end.
fn first_room(alloc: Global, likely: usize, limit: usize) -> Result<Vec<u8>, AllocError>
    ensures empty { IfOk result (λ whole. whole.items ≡ []) }
    ensures known { IfOk result (λ whole.
        0 < likely → vec_capacity whole ≡ min limit (likely + 1)) }
    ensures unknown { IfOk result (λ whole.
        likely ≡ 0 → vec_capacity whole ≡ min limit STEP) }
{
    let room = match likely {
        0 => STEP,
        likely => likely.saturating_add(1),
    };
    Vec::with_capacity(alloc, room.min(limit))
}

// Reads the next bytes to behind the first `count`, which were read before. Their room is made first, so that no byte
// is lost where there is no memory.
fn read_piece<S: Source>(
    source: &mut S,
    whole: &mut Vec<u8>,
    count: usize,
    limit: usize,
) -> Result<Read, AllocError>
    requires read { count ≤ length whole.old.items }
    requires wanted { count < limit }
    requires fits { length whole.old.items ≤ limit }
    ensures fits { length whole.new.items ≤ limit }
    ensures within { IfOk result (λ read. IsWithin read (length whole.new.items - count)) }
    ensures piece { IfOk result (λ read. TakesPiece (got read) (take count whole.old.items)
        (take (count + got read) whole.new.items) (S.left source.old) (S.left source.new)) }
    ensures end { IfOk result (λ read. read ≡ Read.End → IsAtEnd (S.left source.new)) }
    ensures no_memory { OnErr result (source.new ≡ source.old) }
    ensures name { S.name source.new ≡ S.name source.old }
    ensures count { IfOk result (λ read.
        S.faults source.new ≡ count_after (read_failed read) (S.faults source.old)) }
{
    widen(whole, count, limit)?;
    Ok(source.read(whole.slice_mut(count..)))
}

// Makes the bytes longer than the first `count`, by zeros for a read to write over, a step at a time and up to the
// limit. Zeros that no read has written over are used first.
fn widen(whole: &mut Vec<u8>, count: usize, limit: usize) -> Result<(), AllocError>
    requires read { count ≤ length whole.old.items }
    requires wanted { count < limit }
    requires fits { length whole.old.items ≤ limit }
    ensures front { take count whole.new.items ≡ take count whole.old.items }
    ensures longer { OnOk result (count < length whole.new.items) }
    ensures fits { length whole.new.items ≤ limit }
{
    let len = whole.len();
    if count < len {
        return Ok(());
    }
    if len == whole.capacity() {
        whole.reserve_exact(STEP.min(limit - len))?;
    }
    let room = whole.capacity().min(limit) - len;
    lengthen(whole, len + room.min(STEP));
    Ok(())
}

// Makes the bytes as long as `len`, by zeros, in the room that is there.
fn lengthen(whole: &mut Vec<u8>, len: usize)
    requires { len ≤ vec_capacity whole.old }
    ensures front { take (length whole.old.items) whole.new.items ≡ whole.old.items }
    ensures length { length whole.new.items ≡ max len (length whole.old.items) }
{
    while whole.len() < len {
        let next = len.min(whole.len() + ZEROS);
        whole.resize(next, 0).unwrap();
    }
}
