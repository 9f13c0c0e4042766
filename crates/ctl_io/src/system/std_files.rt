//! The adapter over the files of the system.

ghost use Rattle.std.specs.Prelude.{◌≡◌};

use crate::system::answers::{found_answer, made_answer};
use crate::system::attempts::call_again;
use crate::system::{FileSink, FileSource, StdDisk};
use crate::{FaultCount, Files, Found, Made};
use std::fs::{OpenFile, OpenOptions};
use std::os::unix::fs::FileExt;
use std::{fs, io, rt};

/// The files of a runtime, by their paths. They show no bytes, and keep nothing of what is given back.
#[derive(Drop)]
pub struct StdFiles<R> {
    rt: R,
    sources_out: u64,
    sinks_out: u64,
    disks_out: u64,
    faults: FaultCount,
}

impl<R: rt::Files> StdFiles<R> {
    /// Nothing was handed out and nothing has failed.
    pub fn new(rt: R) -> StdFiles<R>
        ensures sources { result.sources_out ≡ 0 }
        ensures sinks { result.sinks_out ≡ 0 }
        ensures disks { result.disks_out ≡ 0 }
        ensures faults { result.faults ≡ 0 }
    {
        StdFiles {
            rt,
            sources_out: 0,
            sinks_out: 0,
            disks_out: 0,
            faults: FaultCount::new(),
        }
    }

    /// How often a call failed, or an object with faults was given back. The count stands still at its type's end.
    pub fn faults(&self) -> u64
        ensures { result ≡ self.now.faults }
    {
        self.faults.count()
    }
}

impl<R: rt::Files> Files for StdFiles<R>
where
    R::File: Send + FileExt,
{
    ghost use Rattle.ctl_io.specs.Custody.{only_out};
    ghost use Rattle.ctl_io.specs.Held.{Unshown};

    type S = FileSource<R::File>;

    type K = FileSink<R::File>;

    type D = StdDisk<R::File>;

    ghost shows = { λ f. record {
      held = λ _ _. Unshown;
      disks = λ _ _. Unshown;
      custody = record {
        sources = only_out f.sources_out;
        sinks = only_out f.sinks_out;
        disks = only_out f.disks_out;
      };
      faults = f.faults;
    } };

    fn source(&mut self, name: &str) -> Found<FileSource<R::File>> {
        if self.sources_out == u64::MAX {
            self.faults.raise();
            return Found::Failed;
        }
        let opened = call_again(|| fs::open(&self.rt, name));
        match found_answer(opened, &mut self.faults) {
            Found::Here(file) => {
                self.sources_out += 1;
                let hint = length_of(&file);
                Found::Here(FileSource::with_hint(file, hint))
            }
            Found::Missing => Found::Missing,
            Found::Failed => Found::Failed,
        }
    }

    fn sink(&mut self, name: &str) -> Made<FileSink<R::File>> {
        if self.sinks_out == u64::MAX {
            self.faults.raise();
            return Made::Failed;
        }
        let created = call_again(|| fs::create(&self.rt, name));
        match made_answer(created, &mut self.faults) {
            Made::Here(file) => {
                self.sinks_out += 1;
                Made::Here(FileSink::new(file))
            }
            Made::Failed => Made::Failed,
        }
    }

    fn disk(&mut self, name: &str, size: u64, make: bool) -> Found<StdDisk<R::File>> {
        if self.disks_out == u64::MAX {
            self.faults.raise();
            return Found::Failed;
        }
        let opened = if make {
            match made_answer(make_disk(&self.rt, name, size), &mut self.faults) {
                Made::Here(file) => Found::Here((file, size)),
                Made::Failed => Found::Failed,
            }
        } else {
            found_answer(open_disk(&self.rt, name), &mut self.faults)
        };
        match opened {
            Found::Here((file, size)) => {
                self.disks_out += 1;
                Found::Here(StdDisk::new(file, size))
            }
            Found::Missing => Found::Missing,
            Found::Failed => Found::Failed,
        }
    }

    fn close_source(&mut self, source: FileSource<R::File>) {
        self.sources_out -= 1;
        if source.faults() > 0 {
            self.faults.raise();
        }
    }

    fn close_sink(&mut self, sink: FileSink<R::File>) {
        self.sinks_out -= 1;
        if sink.faults() > 0 {
            self.faults.raise();
        }
    }

    fn close_disk(&mut self, disk: StdDisk<R::File>) {
        self.disks_out -= 1;
        if disk.faults() > 0 {
            self.faults.raise();
        }
    }
}

// The file of this name, opened to be read and written at places, and how many bytes it has.
fn open_disk<R: rt::Files>(rt: &R, name: &str) -> io::Result<(R::File, u64)> {
    let mut how = OpenOptions::new();
    how.read(true).write(true);
    let file = call_again(|| how.open(rt, name))?;
    let size = call_again(|| file.metadata())?.len();
    Ok((file, size))
}

// The file of this name, made anew with so many zero bytes.
fn make_disk<R: rt::Files>(rt: &R, name: &str, size: u64) -> io::Result<R::File> {
    let mut how = OpenOptions::new();
    how.read(true).write(true).create(true).truncate(true);
    let file = call_again(|| how.open(rt, name))?;
    call_again(|| file.set_len(size))?;
    Ok(file)
}

// How many bytes the file has, or 0 where the system doesn't say. That is no fault, since nothing rests on it.
fn length_of<F: fs::OpenFile>(file: &F) -> usize {
    match file.metadata() {
        Ok(metadata) => metadata.len() as usize,
        Err(_) => 0,
    }
}
