//! The files of the system.

use ctl_io::{FileFault, Files, Found, Made, Source, StdFiles, read_file, write_all};
use std::alloc::Global;
use std::fs;
use std::process::Abort;
use std::test::Fail;

// Writes three bytes to the file of this name, and answers whether it could.
fn write_text<F: Files>(name: &str, files: &mut F) -> bool {
    match files.sink(name) {
        Made::Here(mut sink) => {
            let all = write_all(&mut sink, b"abc");
            files.close_sink(sink);
            all
        }
        Made::Failed => false,
    }
}

// What the source of this name says that it has left, before two bytes are read and after.
fn hints<F: Files>(name: &str, files: &mut F) -> Option<(usize, usize)> {
    match files.source(name) {
        Found::Here(mut source) => {
            let before = source.left_hint();
            let _ = source.read(&mut [0; 2]);
            let after = source.left_hint();
            files.close_source(source);
            Some((before, after))
        }
        Found::Missing | Found::Failed => None,
    }
}

// Whether the file of this name is read as three bytes, or why it isn't.
fn is_read<F: Files>(
    alloc: Global,
    files: &mut F,
    name: &str,
    limit: usize,
) -> Result<bool, FileFault> {
    match read_file(alloc, files, name, limit) {
        Ok(whole) => Ok(whole.as_slice() == b"abc".as_slice()),
        Err(fault) => Err(fault),
    }
}

// A name, the most bytes that are read, and what comes of it.
type Reading = (&'static str, usize, Result<bool, FileFault>);

// A folder is opened and can't be read.
const BEFORE: [Reading; 2] = [
    ("text", 3, Err(FileFault::Missing)),
    (".", 3, Err(FileFault::Failed)),
];

const AFTER: [Reading; 2] = [("text", 3, Ok(true)), ("text", 2, Err(FileFault::TooLong))];

fn are_read<F: Files>(rt: &impl Abort, alloc: Global, files: &mut F, rows: &[Reading]) {
    for (name, limit, answer) in rows {
        assert!(rt; is_read(alloc, files, name, *limit) == *answer, "{name}");
    }
}

// Whether a file of three bytes is made, and says what it has left; none can be made in a folder that is missing.
fn is_made<F: Files>(files: &mut F) -> bool {
    !write_text("missing/text", files)
        && write_text("text", files)
        && hints("text", files) == Some((3, 1))
}

#[test]
fn real_files_are_written_and_read(rt: HostRuntime) -> Result<(), Fail> {
    let mut files = StdFiles::new(rt.clone()?);
    are_read(&rt, rt.alloc(), &mut files, &BEFORE);
    assert!(rt; is_made(&mut files));
    are_read(&rt, rt.alloc(), &mut files, &AFTER);
    assert!(rt; files.faults() == 2);
    fs::remove_file(&rt, "text")?;
    Ok(())
}
