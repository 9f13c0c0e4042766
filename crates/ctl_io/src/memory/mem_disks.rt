//! The disks of files in memory.

ghost use Rattle.std.specs.Prelude.{◌≡◌, ◌+◌, ◌<◌, ◌≤◌, find, length, IfOk, IfSome, replicate};
ghost use Rattle.std.specs.List.{AllByRecursion};
ghost use Rattle.ctl_io.specs.MemDisk.{unused};
ghost use Rattle.ctl_io.specs.Named.{is_listed};
ghost use Rattle.ctl_io.specs.MemDisks.{MadeSize, all_waiting, disk_has, disk_made, IsNewDisk};
ghost use Rattle.ctl_io.specs.MemDisks.{after_lending, after_making, after_return, AreNewDisks};
ghost use Rattle.ctl_io.specs.MemDisks.{longest_name};
ghost use Rattle.ctl_io.specs.MemDisksInside.{IsBlank};

use crate::memory::named::{is_listed, names_of, take_first};
use crate::{Bytes, MemDisk, NamedDisk};
use line_text::append;
use std::alloc::{AllocError, Global};
use std::marker::Model;

/// How many bytes the name of a disk that is made may have.
const LONGEST_NAME: usize = 4096;

/// The room for a disk that may be made, and for its name.
#[derive(Debug, Drop)]
pub(crate) struct BlankDisk {
    name: Vec<u8>,
    disk: MemDisk,
}

/// The disks of files in memory: each that waits is lent once, and blank ones are made.
#[derive(Debug, Drop)]
pub(crate) struct MemDisks {
    waiting: Vec<NamedDisk>,
    // The names of all that waited at first.
    names: Vec<Bytes>,
    blanks: Vec<BlankDisk>,
    // The size of a blank one, and its room for calls and written bytes.
    bytes: u64,
    calls_room: u64,
    bytes_room: usize,
    out: usize,
    back: Vec<NamedDisk>,
}

impl Model for MemDisks {
    ghost use Rattle.ctl_io.specs.MemDisks.{DisksState};

    ghost Value = { DisksState };

    ghost use Rattle.ctl_io.specs.MemDisksInside.{disks_state, AreLaid};

    ghost view = { disks_state };

    ghost invariant = { AreLaid };
}

impl MemDisks {
    /// These disks wait, and `count` disks of at most `bytes` bytes may be made, with room for so many calls and written
    /// bytes. All the room is taken now, and that to take `count` disks back.
    pub(crate) fn new(
        alloc: Global,
        waiting: Vec<NamedDisk>,
        count: usize,
        bytes: u64,
        calls_room: u64,
        bytes_room: usize,
    ) -> Result<MemDisks, AllocError>
        requires { AreNewDisks waiting.items }
        ensures { IfOk result (λ disks. disks ≡ all_waiting waiting.items count
            (record { bytes = bytes; calls_room = calls_room; bytes_room = bytes_room })) }
    {
        let names = names_of(alloc, &waiting)?;
        let blanks = blank_disks(alloc, count, bytes, calls_room, bytes_room)?;
        let back = Vec::with_capacity(alloc, count)?;
        Ok(MemDisks {
            waiting,
            names,
            blanks,
            bytes,
            calls_room,
            bytes_room,
            out: 0,
            back,
        })
    }

    /// How many bytes a disk may have that is made.
    pub(crate) fn most_bytes(&self) -> u64
        ensures { result ≡ self.now.made.bytes }
    {
        self.bytes
    }

    /// Whether a disk that waits, or waited, has this name.
    pub(crate) fn has_name(&self, name: &[u8]) -> bool
        ensures { result ≡ is_listed name.now self.now.names }
    {
        is_listed(name, &self.names)
    }

    /// Lends the first disk of this name that waits.
    pub(crate) fn lend(&mut self, name: &[u8]) -> Option<NamedDisk>
        requires { self.old.out + length self.old.back < self.old.back_room }
        ensures found { result ≡ find (disk_has name.now) self.old.waiting }
        ensures after { self.new ≡ after_lending result name.now self.old }
        ensures new { IfSome result (λ entry. IsNewDisk entry.disk) }
    {
        let entry = take_first(name, &mut self.waiting)?;
        self.out += 1;
        Some(entry)
    }

    /// Makes a disk of `size` zero bytes. None where the name is too long.
    pub(crate) fn make(&mut self, name: &[u8], size: u64) -> Option<NamedDisk>
        requires unmade { 0 < self.old.unmade }
        requires room { self.old.out + length self.old.back < self.old.back_room }
        requires within { size ≤ self.old.made.bytes }
        ensures made { result ≡ disk_made name.now size self.old.made }
        ensures after { self.new ≡ after_making result self.old }
    {
        if name.len() > LONGEST_NAME {
            return None;
        }
        let mut blank = self.blanks.pop()?;
        append(name, &mut blank.name);
        blank.disk.cut(size as usize);
        self.out += 1;
        Some(NamedDisk {
            name: Bytes::of(blank.name),
            disk: blank.disk,
        })
    }

    /// Keeps a disk that is out behind those that were given back before.
    pub(crate) fn take_back(&mut self, disk: NamedDisk)
        requires out { 0 < self.old.out }
        requires room { self.old.out + length self.old.back ≤ self.old.back_room }
        ensures { self.new ≡ after_return disk self.old }
    {
        self.out -= 1;
        self.back.push_reserved(disk);
    }

    /// The disks that were given back, in order.
    pub(crate) fn back(&self) -> &[NamedDisk]
        ensures { result.now ≡ self.now.back }
    {
        &self.back
    }
}

// So many blank disks.
fn blank_disks(
    alloc: Global,
    count: usize,
    bytes: u64,
    calls_room: u64,
    bytes_room: usize,
) -> Result<Vec<BlankDisk>, AllocError>
    ensures count { IfOk result (λ blanks. length blanks.items ≡ count) }
    ensures blank { IfOk result (λ blanks. AllByRecursion (IsBlank (record {
      bytes = bytes;
      calls_room = calls_room;
      bytes_room = bytes_room;
    })) blanks.items) }
{
    let mut blanks = Vec::with_capacity(alloc, count)?;
    for _ in 0..count {
        blanks.push_reserved(blank_disk(alloc, bytes, calls_room, bytes_room)?);
    }
    Ok(blanks)
}

// A blank disk.
fn blank_disk(
    alloc: Global,
    bytes: u64,
    calls_room: u64,
    bytes_room: usize,
) -> Result<BlankDisk, AllocError>
    ensures { IfOk result (IsBlank (record {
      bytes = bytes;
      calls_room = calls_room;
      bytes_room = bytes_room;
    })) }
{
    let zeros = vec![in alloc; 0; bytes as usize]?;
    let disk = MemDisk::new(alloc, zeros, calls_room, bytes_room, Vec::new(alloc))?;
    let name = Vec::with_capacity(alloc, LONGEST_NAME)?;
    Ok(BlankDisk { name, disk })
}
