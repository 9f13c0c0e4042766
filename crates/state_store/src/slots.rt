//! A store on a disk: what it keeps, and how that is saved.

ghost use Rattle.std.specs.Prelude.{◌≡◌, ◌+◌, ◌<◌, ◌^◌, ◌≤◌, length, IfOk, IfSome, is_err};
ghost use Rattle.ctl_io.specs.Crash.{LeavesNoMore, LeavesOnly};
ghost use Rattle.ctl_io.specs.Faults.{count_after};
ghost use Rattle.state_store.specs.Slots.{number_of, store_size};
ghost use Rattle.state_store.specs.Reading.{HasRead, HasNumber};
ghost use Rattle.state_store.specs.Steps.{IsFrom, ShowsStep, KeepsSameOr, Keeps};
ghost use Rattle.state_store.specs.Store.{disk_of, disk_after, entry_len_of, number_by, slot_of};
ghost use Rattle.state_store.specs.Store.{IsSettled};

use crate::heads::{Head, Heads};
use crate::reading::read_store;
use crate::slot::Slot;
use crate::steps::replace;
use ctl_io::{Did, Disk};

/// A store on a disk, which knows the heads of its slots.
#[derive(Debug, Drop)]
pub struct Slots<D> {
    disk: D,
    // How many bytes an entry has, which is a number and a text.
    entry_len: u64,
    heads: Heads,
}

impl<D: Disk> Slots<D> {
    /// The slot that stands, none at the start.
    pub fn standing(&self) -> Option<Slot>
        ensures { result ≡ slot_of self.now }
    {
        self.heads.standing()
    }

    /// The number of what is kept, 0 at the start.
    pub fn number(&self) -> u64
        ensures { result ≡ number_by self.now }
    {
        self.heads.number()
    }

    /// The disk, with what is kept.
    pub fn into_disk(self) -> D
        ensures { result ≡ disk_of self }
    {
        let Slots {
            disk,
            entry_len: _,
            heads: _,
        } = self;
        disk
    }

    /// The store on a disk, and in `entry`, which is as long as its entries, the entry of the slot that stands, if one
    /// does. Where a call of the disk fails, the disk comes back, and nothing is said of `entry`.
    pub fn open(disk: D, entry: &mut [u8]) -> Result<Slots<D>, D>
        requires number { 8 ≤ length entry.old }
        requires within { store_size (length entry.old) ≤ D.size disk }
        ensures settled { IfOk result (IsSettled D.size D.contents D.may_leave) }
        ensures entry { IfOk result (λ slots.
            IfSome (D.contents disk) (HasRead (length entry.old) (slot_of slots) entry.new)) }
        ensures number { IfOk result (λ slots.
            IfSome (D.contents disk) (HasNumber (length entry.old) (number_by slots))) }
        ensures len { IfOk result (λ slots. entry_len_of slots ≡ length entry.old) }
        ensures contents { D.contents (disk_after result) ≡ D.contents disk }
        ensures crash { LeavesNoMore (D.may_leave disk) (D.may_leave (disk_after result)) }

        // A crash at any moment of the call leaves no more than it might have before.
        ensures any_moment { LeavesOnly D.moment D.left_since disk (disk_after result)
            (D.may_leave disk) }
        ensures size { D.size (disk_after result) ≡ D.size disk }
        ensures name { D.name (disk_after result) ≡ D.name disk }
        ensures count { D.faults (disk_after result)
            ≡ count_after (is_err result) (D.faults disk) }
    {
        let mut disk = disk;
        match read_store(&mut disk, entry) {
            Some(heads) => Ok(Slots {
                disk,
                entry_len: entry.len() as u64,
                heads,
            }),
            None => Err(disk),
        }
    }

    /// Saves an entry, a number and a text, whose number is the next one. The slot that stands isn't written. Where a
    /// call of the disk fails, the store is spent: it is opened again from the disk that comes back.
    pub fn save(self, entry: &[u8]) -> Result<Slots<D>, D>
        requires settled { IsSettled D.size D.contents D.may_leave self }
        requires len { length entry.now ≡ entry_len_of self }
        requires next { number_of entry.now ≡ number_by self + 1 }
        requires room { number_by self + 1 < 2 ^ 64 }
        ensures kept { IfOk result (λ slots. ShowsStep (Keeps (entry_len_of self) entry.now)
            (D.contents (disk_of self)) (D.contents (disk_of slots))) }
        ensures settled { IfOk result (IsSettled D.size D.contents D.may_leave) }
        ensures number { IfOk result (λ slots. number_by slots ≡ number_by self + 1) }
        ensures len { IfOk result (λ slots. entry_len_of slots ≡ entry_len_of self) }

        // A crash at any moment of the call leaves what was kept before it, or the entry.
        ensures any_moment { LeavesOnly D.moment D.left_since (disk_of self) (disk_after result)
            (IsFrom (KeepsSameOr (entry_len_of self) entry.now) (D.contents (disk_of self))) }
        ensures size { D.size (disk_after result) ≡ D.size (disk_of self) }
        ensures name { D.name (disk_after result) ≡ D.name (disk_of self) }
        ensures count { D.faults (disk_after result)
            ≡ count_after (is_err result) (D.faults (disk_of self)) }
    {
        let Slots {
            disk,
            entry_len,
            heads,
        } = self;
        let mut disk = disk;
        let slot = heads.spare();
        let head = Head {
            is_open: true,
            number: heads.number() + 1,
        };
        match replace(&mut disk, slot, heads.is_open(slot), entry) {
            Did::Done => Ok(Slots {
                disk,
                entry_len,
                heads: heads.with(slot, head),
            }),
            Did::Failed => Err(disk),
        }
    }
}
