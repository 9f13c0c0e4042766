//! A disk in memory.

ghost use Rattle.std.specs.Prelude.{◌≡◌, ◌+◌, ◌<◌, ◌≤◌, ◌&&◌, [], ◌++◌, Some, IfOk, length};
ghost use Rattle.std.specs.Prelude.{map, take, replicate, nat_lt, nat_le, vec_capacity};
ghost use Rattle.std.specs.List.{AllByRecursion};
ghost use Rattle.ctl_io.specs.Disk.{overlaid, AreAt};
ghost use Rattle.ctl_io.specs.MemDisk.{unused, stored_by, disk_answer, crash_copy};
ghost use Rattle.ctl_io.specs.MemDisk.{after_disk_read, after_disk_write, after_disk_sync};
ghost use Rattle.ctl_io.specs.DiskPast.{MayLeave, LeftSince, ShownSince, now_counts, now_alone};
ghost use Rattle.ctl_io.specs.DiskPast.{shows_now, shows_alone, shown_left};
ghost use Rattle.ctl_io.specs.MemDisk.{fails_when, torn_last, past_of};
ghost use Rattle.ctl_io.specs.MemDiskInside.{write_of, IsSpan};

use crate::memory::calls::CallCount;
use crate::memory::disk_call::{DiskCall, WriteSpan};
use crate::{Did, Disk};
use line_text::append;
use std::alloc::{AllocError, Global};
use std::marker::Model;

/// A disk in memory, which records its calls. A call that there isn't room to record fails and changes nothing. One that
/// is listed to fail is recorded, and leaves what a read gives; a crash may leave any bytes in a listed write's range.
#[derive(Debug, Drop)]
pub struct MemDisk {
    // The bytes at first, now, and at the last sync.
    start: Vec<u8>,
    present: Vec<u8>,
    synced: Vec<u8>,
    calls: Vec<DiskCall>,
    // The writes since the last sync, and the bytes of all writes.
    pending: Vec<WriteSpan>,
    written: Vec<u8>,
    count: CallCount,
}

impl Model for MemDisk {
    ghost use Rattle.ctl_io.specs.MemDisk.{DiskState};

    ghost Value = { DiskState };

    ghost use Rattle.ctl_io.specs.MemDiskInside.{disk_state, IsKept};

    ghost view = { disk_state };

    ghost invariant = { IsKept };
}

impl MemDisk {
    /// A disk of these bytes, with room to record `calls` calls and `room` written bytes, which it takes now. `failing`
    /// holds the numbers, from 0, of the calls that fail.
    pub fn new(
        alloc: Global,
        bytes: Vec<u8>,
        calls: u64,
        room: usize,
        failing: Vec<u64>,
    ) -> Result<MemDisk, AllocError>
        ensures { IfOk result (λ disk. disk ≡ unused bytes.items calls room failing.items) }
    {
        let present = bytes.to_vec(alloc)?;
        let synced = bytes.to_vec(alloc)?;
        let recorded = Vec::with_capacity(alloc, calls as usize)?;
        let pending = Vec::with_capacity(alloc, calls as usize)?;
        let written = Vec::with_capacity(alloc, room)?;
        Ok(MemDisk {
            start: bytes,
            present,
            synced,
            calls: recorded,
            pending,
            written,
            count: CallCount::new(failing),
        })
    }

    /// Gives the bytes from the place `at` on, or fails where the call's number is listed or there isn't room for it.
    pub fn give(&mut self, at: u64, into: &mut [u8]) -> Did
        requires { at + length into.old ≤ length (stored_by self.old).present }
        ensures answer { result ≡ disk_answer 0 self.old }
        ensures bytes { result ≡ Did.Done →
            AreAt at into.new (Some (stored_by self.old).present) }
        ensures after { self.new ≡ after_disk_read self.old }
    {
        let listed = self.count.next_fails();
        let room = has_room(0, &self.calls, &self.written);
        self.count.count(fails(listed, room));
        if !room {
            return Did::Failed;
        }
        self.calls.push_reserved(DiskCall::Read { done: !listed });
        if listed {
            return Did::Failed;
        }
        let at = at as usize;
        into.copy_from_slice(&self.present[at..at + into.len()]);
        Did::Done
    }

    /// Writes the bytes from the place `at` on, or fails where the call's number is listed or there isn't room for it.
    pub fn take(&mut self, at: u64, bytes: &[u8]) -> Did
        requires { at + length bytes.now ≤ length (stored_by self.old).present }
        ensures answer { result ≡ disk_answer (length bytes.now) self.old }
        ensures after { self.new
            ≡ after_disk_write (record { at = at; bytes = bytes.now }) self.old }
    {
        let listed = self.count.next_fails();
        let room = has_room(bytes.len(), &self.calls, &self.written);
        self.count.count(fails(listed, room));
        if !room {
            return Did::Failed;
        }
        let span = WriteSpan {
            at: at as usize,
            from: self.written.len(),
            len: bytes.len(),
        };
        append(bytes, &mut self.written);
        self.pending.push_reserved(span);
        self.calls.push_reserved(DiskCall::Write {
            span,
            done: !listed,
        });
        if listed {
            return Did::Failed;
        }
        overwrite(bytes, span.at, &mut self.present);
        Did::Done
    }

    /// Sees that what was written lasts, or fails where the call's number is listed or there isn't room for it.
    pub fn settle(&mut self) -> Did
        ensures answer { result ≡ disk_answer 0 self.old }
        ensures after { self.new ≡ after_disk_sync self.old }
    {
        let listed = self.count.next_fails();
        let room = has_room(0, &self.calls, &self.written);
        self.count.count(fails(listed, room));
        if !room {
            return Did::Failed;
        }
        self.calls.push_reserved(DiskCall::Sync { done: !listed });
        if listed {
            return Did::Failed;
        }
        self.synced.copy_from_slice(&self.present);
        self.pending.clear();
        Did::Done
    }

    /// A disk of which no call was made, with the same room, and with one of the contents that a crash of this one may
    /// leave: the first `kept` writes since the last sync stand, and the last of these has bytes A5 in its range.
    pub fn crashed(&self, alloc: Global, kept: u64) -> Result<MemDisk, AllocError>
        ensures after { IfOk result (λ disk. disk ≡ crash_copy kept self.now) }
        ensures left { IfOk result (λ disk. MayLeave (stored_by self.now) disk.start) }
    {
        let mut bytes = self.synced.to_vec(alloc)?;
        let first = (kept as usize).min(self.pending.len());
        replay(&self.pending[..first], &self.written, &mut bytes);
        let calls = self.calls.capacity() as u64;
        let room = self.written.capacity();
        MemDisk::new(alloc, bytes, calls, room, Vec::new(alloc))
    }

    /// Leaves the first `size` bytes of a disk of which no call was made.
    pub(crate) fn cut(&mut self, size: usize)
        requires { self.old.events ≡ [] }
        ensures { self.new ≡ record self.old { start = take size self.old.start } }
    {
        self.start.truncate(size);
        self.present.truncate(size);
        self.synced.truncate(size);
    }

    /// The recorded calls, the oldest first.
    pub fn calls(&self) -> &[DiskCall] {
        &self.calls
    }

    /// The bytes that a read gives.
    pub fn bytes(&self) -> &[u8]
        ensures { result.now ≡ (stored_by self.now).present }
    {
        &self.present
    }

    /// How often a call failed. The count stands still at its type's end.
    pub fn faults(&self) -> u64
        ensures { result ≡ self.now.calls.faults }
    {
        self.count.faults()
    }
}

impl Disk for MemDisk {
    ghost use Rattle.std.proofs.Common.{inl, refl};

    ghost size = { λ d. length (stored_by d).present };

    ghost contents = { λ d. Some (stored_by d).present };

    ghost may_leave = { λ d. MayLeave (stored_by d) };

    ghost moment = { λ d. length d.events };

    ghost left_since = { λ d. LeftSince d.start d.events };

    ghost shown_since = { λ d. ShownSince d.start d.events };

    ghost past = { λ d. Some (past_of d) };

    ghost faults = { λ d. d.calls.faults };

    ghost shown_may_stay = { λ d. inl refl };

    ghost as_many = { λ d. refl };

    ghost made = { λ d. record {
      present = refl;
      counted = refl;
      leaves = λ c left. left;
      no_less = λ c left. left;
      left = λ t c left. left;
      no_less_left = λ t c left. left;
    } };

    ghost made_shown = { λ d. record { shown = λ t c is. is; no_less = λ t c is. is } };

    ghost counts_now = { λ d t c le left. now_counts d.start d.events t c left };

    ghost only_now = { λ d c left. now_alone d.start d.events c left };

    ghost shows_now = { λ d t le. shows_now d.start d.events t };

    ghost shows_alone = { λ d c shown. shows_alone d.start d.events c shown };

    ghost shown_left = { λ d t c shown. shown_left d.start d.events t c shown };

    fn size(&self) -> u64 {
        self.present.len() as u64
    }

    fn read(&mut self, at: u64, into: &mut [u8]) -> Did {
        self.give(at, into)
    }

    fn write(&mut self, at: u64, bytes: &[u8]) -> Did {
        self.take(at, bytes)
    }

    fn sync(&mut self) -> Did {
        self.settle()
    }
}

// Whether there is room to record a call that writes so many bytes.
fn has_room(count: usize, calls: &Vec<DiskCall>, written: &Vec<u8>) -> bool
    ensures { result ≡ (nat_lt (length calls.now.items) (vec_capacity calls.now)
        && nat_le (length written.now.items + count) (vec_capacity written.now)) }
{
    calls.len() < calls.capacity() && count <= written.capacity() - written.len()
}

// Whether a call fails that is listed or isn't, where there is room to record it or isn't.
fn fails(listed: bool, room: bool) -> bool
    ensures { result ≡ fails_when listed room }
{
    listed || !room
}

// Puts the bytes over those from a place on.
fn overwrite(bytes: &[u8], at: usize, out: &mut [u8])
    requires { at + length bytes.now ≤ length out.old }
    ensures { out.new ≡ overlaid at bytes.now out.old }
{
    out[at..at + bytes.len()].copy_from_slice(bytes);
}

// Puts bytes A5 over so many from a place on.
fn spoil(at: usize, len: usize, out: &mut [u8])
    requires { at + len ≤ length out.old }
    ensures { out.new ≡ overlaid at (replicate len 165) out.old }
{
    out[at..at + len].fill(0xA5);
}

// Makes the writes one after another, and tears the last.
fn replay(spans: &[WriteSpan], written: &[u8], out: &mut [u8])
    requires { AllByRecursion (IsSpan (length written.now) (length out.old)) spans.now }
    ensures { out.new ≡ torn_last (map (write_of written.now) spans.now) out.old }
{
    let mut rest = spans;
    while let [span, after @ ..] = rest {
        if after.is_empty() {
            spoil(span.at, span.len, out);
            return;
        }
        overwrite(&written[span.from..span.from + span.len], span.at, out);
        rest = after;
    }
}
