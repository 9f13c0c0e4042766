//! Files in memory.

ghost use Rattle.std.specs.Prelude.{◌≡◌, ◌<◌, IfOk};
ghost use Rattle.ctl_io.specs.Files.{IfFound, IfMade};
ghost use Rattle.ctl_io.specs.Memory.{IsNewSource, IsNewSink};
ghost use Rattle.ctl_io.specs.MemFiles.{unasked, AreNewSources, AreNewSinks, held_of, custody_of};
ghost use Rattle.ctl_io.specs.MemFiles.{source_answer, without_source, after_source, sink_answer};
ghost use Rattle.ctl_io.specs.MemFiles.{without_sink, after_sink, after_close_source};
ghost use Rattle.ctl_io.specs.MemFiles.{after_close_sink, disk_answer, without_disk, after_disk};
ghost use Rattle.ctl_io.specs.MemFiles.{after_close_disk};
ghost use Rattle.ctl_io.specs.MemDisks.{AreNewDisks, IsNewDisk, disk_held_of};

use crate::memory::calls::CallCount;
use crate::memory::mem_disks::MemDisks;
use crate::memory::named::{is_listed, names_of, take_first};
use crate::{Bytes, Files, Found, Made, NamedDisk, NamedSink, NamedSource};
use std::alloc::{AllocError, Global};
use std::marker::Model;

/// Files in memory. Each source, sink and disk is handed out once, the first of its name first, and what is given back
/// isn't handed out again.
#[derive(Debug, Drop)]
pub struct MemFiles {
    waiting: Vec<NamedSource>,
    sinks: Vec<NamedSink>,
    // The names of all sources, also of those that were handed out.
    names: Vec<Bytes>,
    // So many objects may still be handed out.
    objects: usize,
    sources_out: usize,
    sinks_out: usize,
    sources_back: Vec<NamedSource>,
    sinks_back: Vec<NamedSink>,
    disks: MemDisks,
    calls: CallCount,
}

impl Model for MemFiles {
    ghost use Rattle.ctl_io.specs.MemFiles.{FilesState};

    ghost Value = { FilesState };

    ghost use Rattle.ctl_io.specs.MemFilesInside.{files_state, HasRoom};

    ghost view = { files_state };

    ghost invariant = { HasRoom };
}

impl MemFiles {
    /// Files of these sources, sinks and disks, which are new. They hand out at most `objects` objects, and take room now
    /// to take so many of each kind back, for the names, and for so many disks that are made: of at most `disk_size`
    /// bytes, each with room for `disk_calls` calls and `disk_room` written bytes. `failing` holds the numbers, from 0,
    /// of the calls that fail, where those that ask for a source, a sink or a disk are numbered together.
    pub fn new(
        alloc: Global,
        sources: Vec<NamedSource>,
        sinks: Vec<NamedSink>,
        disks: Vec<NamedDisk>,
        objects: usize,
        failing: Vec<u64>,
        disk_calls: u64,
        disk_room: usize,
        disk_size: u64,
    ) -> Result<MemFiles, AllocError>
        requires new_sources { AreNewSources sources.items }
        requires new_sinks { AreNewSinks sinks.items }
        requires new_disks { AreNewDisks disks.items }
        ensures { IfOk result (λ files. files ≡ unasked sources.items sinks.items disks.items
            objects failing.items (record {
              bytes = disk_size;
              calls_room = disk_calls;
              bytes_room = disk_room;
            })) }
    {
        let names = names_of(alloc, &sources)?;
        let sources_back = Vec::with_capacity(alloc, objects)?;
        let sinks_back = Vec::with_capacity(alloc, objects)?;
        let disks = MemDisks::new(alloc, disks, objects, disk_size, disk_calls, disk_room)?;
        Ok(MemFiles {
            waiting: sources,
            sinks,
            names,
            objects,
            sources_out: 0,
            sinks_out: 0,
            sources_back,
            sinks_back,
            disks,
            calls: CallCount::new(failing),
        })
    }

    /// Hands out the first source of this name that waits. It fails where the call's number is listed, and for want of
    /// objects or of such a source; `Missing` is said only of a name that no source ever had.
    pub fn lend_source(&mut self, name: &str) -> Found<NamedSource>
        ensures answer { result ≡ source_answer self.old name.now }
        ensures after { self.new ≡ after_source result name.now self.old }
        ensures new { IfFound result (λ entry. IsNewSource entry.source) }
    {
        let found = self.find_source(name.as_bytes());
        self.calls.count(matches!(&found, Found::Failed));
        found
    }

    /// Hands out the first sink of this name that waits. It fails where the call's number is listed, and for want of
    /// objects or of such a sink.
    pub fn lend_sink(&mut self, name: &str) -> Made<NamedSink>
        ensures answer { result ≡ sink_answer self.old name.now }
        ensures after { self.new ≡ after_sink result name.now self.old }
        ensures new { IfMade result (λ entry. IsNewSink entry.sink) }
    {
        let made = self.find_sink(name.as_bytes());
        self.calls.count(matches!(&made, Made::Failed));
        made
    }

    /// Hands out the first disk of this name that waits, or makes one of `size` zero bytes under it. It fails where the
    /// call's number is listed, where `size` is more than a disk may have that is made, and for want of objects, of such
    /// a disk, or of room for a name of more than 4,096 bytes; `Missing` is said only of a name that no disk ever had.
    pub fn lend_disk(&mut self, name: &str, size: u64, make: bool) -> Found<NamedDisk>
        ensures answer { result ≡ disk_answer self.old name.now size make }
        ensures after { self.new ≡ after_disk result name.now make self.old }
        ensures new { IfFound result (λ entry. IsNewDisk entry.disk) }
    {
        let found = self.find_disk(name.as_bytes(), size, make);
        self.calls.count(matches!(&found, Found::Failed));
        found
    }

    /// Keeps a source that these files handed out behind those that were given back before.
    pub fn take_back_source(&mut self, source: NamedSource)
        requires { 0 < self.old.sources_out }
        ensures { self.new ≡ after_close_source source self.old }
    {
        self.calls.count_back(source.source.faults());
        self.sources_out -= 1;
        self.sources_back.push_reserved(source);
    }

    /// Keeps a sink that these files handed out behind those that were given back before.
    pub fn take_back_sink(&mut self, sink: NamedSink)
        requires { 0 < self.old.sinks_out }
        ensures { self.new ≡ after_close_sink sink self.old }
    {
        self.calls.count_back(sink.sink.faults());
        self.sinks_out -= 1;
        self.sinks_back.push_reserved(sink);
    }

    /// Keeps a disk that these files handed out behind those that were given back before.
    pub fn take_back_disk(&mut self, disk: NamedDisk)
        requires { 0 < self.old.disks.out }
        ensures { self.new ≡ after_close_disk disk self.old }
    {
        self.calls.count_back(disk.disk.faults());
        self.disks.take_back(disk);
    }

    /// The sources that were given back, in order.
    pub fn sources_back(&self) -> &[NamedSource]
        ensures { result.now ≡ self.now.sources_back }
    {
        &self.sources_back
    }

    /// The sinks that were given back, in order.
    pub fn sinks_back(&self) -> &[NamedSink]
        ensures { result.now ≡ self.now.sinks_back }
    {
        &self.sinks_back
    }

    /// The disks that were given back, in order.
    pub fn disks_back(&self) -> &[NamedDisk]
        ensures { result.now ≡ self.now.disks.back }
    {
        self.disks.back()
    }

    /// How often a call failed, or an object with faults was given back. The count stands still at its type's end.
    pub fn faults(&self) -> u64
        ensures { result ≡ self.now.calls.faults }
    {
        self.calls.faults()
    }

    // Looks for a source, without counting the call.
    fn find_source(&mut self, name: &[u8]) -> Found<NamedSource>
        ensures answer { result ≡ source_answer self.old name.now }
        ensures after { self.new ≡ without_source result name.now self.old }
        ensures new { IfFound result (λ entry. IsNewSource entry.source) }
    {
        if self.calls.next_fails() {
            return Found::Failed;
        }
        if !is_listed(name, &self.names) {
            return Found::Missing;
        }
        if self.objects == 0 {
            return Found::Failed;
        }
        match take_first(name, &mut self.waiting) {
            Some(entry) => {
                self.objects -= 1;
                self.sources_out += 1;
                Found::Here(entry)
            }
            None => Found::Failed,
        }
    }

    // Looks for a sink, without counting the call.
    fn find_sink(&mut self, name: &[u8]) -> Made<NamedSink>
        ensures answer { result ≡ sink_answer self.old name.now }
        ensures after { self.new ≡ without_sink result name.now self.old }
        ensures new { IfMade result (λ entry. IsNewSink entry.sink) }
    {
        if self.calls.next_fails() || self.objects == 0 {
            return Made::Failed;
        }
        match take_first(name, &mut self.sinks) {
            Some(entry) => {
                self.objects -= 1;
                self.sinks_out += 1;
                Made::Here(entry)
            }
            None => Made::Failed,
        }
    }

    // Looks for a disk, or makes one, without counting the call.
    fn find_disk(&mut self, name: &[u8], size: u64, make: bool) -> Found<NamedDisk>
        ensures answer { result ≡ disk_answer self.old name.now size make }
        ensures after { self.new ≡ without_disk result name.now make self.old }
        ensures new { IfFound result (λ entry. IsNewDisk entry.disk) }
    {
        if self.calls.next_fails() || size > self.disks.most_bytes() {
            return Found::Failed;
        }
        if !make && !self.disks.has_name(name) {
            return Found::Missing;
        }
        if self.objects == 0 {
            return Found::Failed;
        }
        let entry = if make {
            self.disks.make(name, size)
        } else {
            self.disks.lend(name)
        };
        match entry {
            Some(entry) => {
                self.objects -= 1;
                Found::Here(entry)
            }
            None => Found::Failed,
        }
    }
}

impl Files for MemFiles {
    type S = NamedSource;

    type K = NamedSink;

    type D = NamedDisk;

    ghost shows = { λ f. record {
      held = held_of f;
      disks = disk_held_of f.disks;
      custody = custody_of f;
      faults = f.calls.faults;
    } };

    fn source(&mut self, name: &str) -> Found<NamedSource> {
        self.lend_source(name)
    }

    fn sink(&mut self, name: &str) -> Made<NamedSink> {
        self.lend_sink(name)
    }

    fn disk(&mut self, name: &str, size: u64, make: bool) -> Found<NamedDisk> {
        self.lend_disk(name, size, make)
    }

    fn close_source(&mut self, source: NamedSource) {
        self.take_back_source(source);
    }

    fn close_sink(&mut self, sink: NamedSink) {
        self.take_back_sink(sink);
    }

    fn close_disk(&mut self, disk: NamedDisk) {
        self.take_back_disk(disk);
    }
}
