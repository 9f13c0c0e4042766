//! Sources, sinks and disks in memory under the names that files have them by.

ghost use Rattle.std.specs.Prelude.{Some, length};
ghost use Rattle.ctl_io.specs.MemDisk.{past_of, stored_by};
ghost use Rattle.ctl_io.specs.DiskPast.{MayLeave, LeftSince, ShownSince, now_counts, now_alone};
ghost use Rattle.ctl_io.specs.DiskPast.{shows_now, shows_alone, shown_left};

use crate::memory::named::Named;
use crate::{Bytes, Did, Disk, MemDisk, MemSink, MemSource, Read, Sink, Source, Write};

/// A source in memory under the name that files have it by.
#[derive(Debug, Drop)]
pub struct NamedSource {
    pub name: Bytes,
    pub source: MemSource,
}

impl Named for NamedSource {
    ghost name_of = { λ entry. entry.name };

    fn name_of(&self) -> &[u8] {
        self.name.as_slice()
    }
}

impl Source for NamedSource {
    ghost left = { λ entry. Some entry.source.left };

    ghost faults = { λ entry. entry.source.calls.faults };

    ghost name = { λ entry. Some entry.name };

    fn left_hint(&self) -> usize {
        self.source.left().len()
    }

    fn read(&mut self, into: &mut [u8]) -> Read {
        self.source.give(into)
    }
}

/// A sink in memory under the name that files have it by.
#[derive(Debug, Drop)]
pub struct NamedSink {
    pub name: Bytes,
    pub sink: MemSink,
}

impl Named for NamedSink {
    ghost name_of = { λ entry. entry.name };

    fn name_of(&self) -> &[u8] {
        self.name.as_slice()
    }
}

impl Sink for NamedSink {
    ghost written = { λ entry. Some entry.sink.written };

    ghost faults = { λ entry. entry.sink.calls.faults };

    ghost name = { λ entry. Some entry.name };

    fn write(&mut self, bytes: &[u8]) -> Write {
        self.sink.take(bytes)
    }
}

/// A disk in memory under the name that files have it by.
#[derive(Debug, Drop)]
pub struct NamedDisk {
    pub name: Bytes,
    pub disk: MemDisk,
}

impl Named for NamedDisk {
    ghost name_of = { λ entry. entry.name };

    fn name_of(&self) -> &[u8] {
        self.name.as_slice()
    }
}

impl Disk for NamedDisk {
    ghost use Rattle.std.proofs.Common.{inl, refl};

    ghost size = { λ entry. length (stored_by entry.disk).present };

    ghost contents = { λ entry. Some (stored_by entry.disk).present };

    ghost may_leave = { λ entry. MayLeave (stored_by entry.disk) };

    ghost moment = { λ entry. length entry.disk.events };

    ghost left_since = { λ entry. LeftSince entry.disk.start entry.disk.events };

    ghost shown_since = { λ entry. ShownSince entry.disk.start entry.disk.events };

    ghost past = { λ entry. Some (past_of entry.disk) };

    ghost faults = { λ entry. entry.disk.calls.faults };

    ghost name = { λ entry. Some entry.name };

    ghost shown_may_stay = { λ entry. inl refl };

    ghost as_many = { λ entry. refl };

    ghost made = { λ entry. record {
      present = refl;
      counted = refl;
      leaves = λ c left. left;
      no_less = λ c left. left;
      left = λ t c left. left;
      no_less_left = λ t c left. left;
    } };

    ghost made_shown = { λ entry.
        record { shown = λ t c since. since; no_less = λ t c since. since } };

    ghost counts_now = { λ entry t c le left.
        now_counts entry.disk.start entry.disk.events t c left };

    ghost only_now = { λ entry c left. now_alone entry.disk.start entry.disk.events c left };

    ghost shows_now = { λ entry t le. shows_now entry.disk.start entry.disk.events t };

    ghost shows_alone = { λ entry c shown.
        shows_alone entry.disk.start entry.disk.events c shown };

    ghost shown_left = { λ entry t c shown.
        shown_left entry.disk.start entry.disk.events t c shown };

    fn size(&self) -> u64 {
        self.disk.size()
    }

    fn read(&mut self, at: u64, into: &mut [u8]) -> Did {
        self.disk.read(at, into)
    }

    fn write(&mut self, at: u64, bytes: &[u8]) -> Did {
        self.disk.write(at, bytes)
    }

    fn sync(&mut self) -> Did {
        self.disk.sync()
    }
}
