//! A call that a signal interrupts is made again and is no fault, for each adapter over a system that interrupts each
//! first try.

use ctl_io::{
    FileSink, FileSource, Files, Found, Made, Read, Sink, Source, StdFiles, StdOut, Write,
};
use std::alloc::Allocator;
use std::cell::Cell;
use std::fmt::Display;
use std::fs::{File, Metadata, OpenOptions};
use std::io::{self, ErrorKind};
use std::rt;
use std::test::Fail;

// A system of which every other call is interrupted, the first too.
#[derive(Drop)]
struct Halting<R> {
    inner: R,
    tried: Cell<bool>,
}

impl<R> Halting<R> {
    fn new(inner: R) -> Halting<R> {
        Halting {
            inner,
            tried: Cell::new(false),
        }
    }

    // Fails where the call is interrupted.
    fn turn(&self) -> io::Result<()> {
        let tried = self.tried.get();
        self.tried.set(!tried);
        if tried {
            Ok(())
        } else {
            Err(io::Error::from(ErrorKind::Interrupted))
        }
    }
}

impl io::Read for Halting<u8> {
    fn read(&mut self, into: &mut [u8]) -> io::Result<usize> {
        self.turn()?;
        into.fill(self.inner);
        Ok(into.len())
    }
}

impl io::Write for Halting<u8> {
    fn write(&mut self, bytes: &[u8]) -> io::Result<usize> {
        self.turn()?;
        Ok(bytes.len())
    }

    fn flush(&mut self) -> io::Result<()> {
        Ok(())
    }
}

impl Print for Halting<u8> {
    fn print<D: Display + Drop>(&self, _value: D) -> io::Result<()> {
        unsupported()
    }

    fn println<D: Display + Drop>(&self, _value: D) -> io::Result<()> {
        unsupported()
    }

    fn write_all(&self, _bytes: &[u8]) -> io::Result<()> {
        self.turn()
    }
}

impl rt::Files for Halting<HostRuntime> {
    type File = File;

    type Dir = File;

    fn open_file(&self, how: &OpenOptions, path: &str) -> io::Result<File> {
        self.turn()?;
        how.open(&self.inner, path)
    }

    fn open_dir(&self, _path: &str) -> io::Result<File> {
        unsupported()
    }

    fn metadata(&self, _path: &str) -> io::Result<Metadata> {
        unsupported()
    }

    fn symlink_metadata(&self, _path: &str) -> io::Result<Metadata> {
        unsupported()
    }

    fn copy(&self, _from: &str, _to: &str) -> io::Result<u64> {
        unsupported()
    }

    fn rename(&self, _from: &str, _to: &str) -> io::Result<()> {
        unsupported()
    }

    fn remove_file(&self, _path: &str) -> io::Result<()> {
        unsupported()
    }

    fn create_dir(&self, _path: &str) -> io::Result<()> {
        unsupported()
    }

    fn remove_dir(&self, _path: &str) -> io::Result<()> {
        unsupported()
    }

    fn remove_dir_all<B: Allocator>(&self, _alloc: B, _path: &str) -> io::Result<()> {
        unsupported()
    }
}

fn unsupported<T>() -> io::Result<T> {
    Err(io::Error::from(ErrorKind::Unsupported))
}

// What two reads of a source give, and the bytes of the second.
fn reads<S: Source>(source: &mut S) -> (Read, Read, [u8; 2]) {
    let mut into = [0; 2];
    let first = source.read(&mut into);
    let second = source.read(&mut into);
    (first, second, into)
}

// What two writes of two bytes to a sink take.
fn writes<K: Sink>(sink: &mut K) -> (Write, Write) {
    let first = sink.write(b"ab");
    (first, sink.write(b"ab"))
}

#[test]
fn an_interrupted_read_or_write_is_made_again(rt: HostRuntime) {
    let mut source = FileSource::new(Halting::new(7));
    assert!(rt; reads(&mut source) == (Read::Got(2), Read::Got(2), [7, 7]));
    let mut sink = FileSink::new(Halting::new(7));
    assert!(rt; writes(&mut sink) == (Write::Took(2), Write::Took(2)));
    let mut out = StdOut::new(Halting::new(7));
    assert!(rt; writes(&mut out) == (Write::Took(2), Write::Took(2)));
}

// Makes a file and opens it again. Whether it could.
fn is_made_and_found<F: Files>(name: &str, files: &mut F) -> bool {
    let made = match files.sink(name) {
        Made::Here(sink) => {
            files.close_sink(sink);
            true
        }
        Made::Failed => false,
    };
    match files.source(name) {
        Found::Here(source) => {
            files.close_source(source);
            made
        }
        Found::Missing | Found::Failed => false,
    }
}

#[test]
fn an_interrupted_opening_is_made_again(rt: HostRuntime) -> Result<(), Fail> {
    let mut files = StdFiles::new(Halting::new(rt.clone()?));
    assert!(rt; is_made_and_found("interrupted", &mut files) && files.faults() == 0);
    std::fs::remove_file(&rt, "interrupted")?;
    Ok(())
}
