//! A use of `ctl_io`: a file is copied, over any files.

ghost use Rattle.std.specs.Prelude.{IfOk};
ghost use Rattle.ctl_io.specs.Memory.{IsNewSink, IsNewSource};

use ctl_io::{
    Bytes, Files, Made, MemFiles, MemSink, MemSource, NamedSink, NamedSource, read_file, write_all,
};
use std::alloc::{AllocError, Global};
use std::test::Fail;

// Copies a file of at most 1,000 bytes, and answers whether it could.
fn copy_file<F: Files>(alloc: Global, from: &str, to: &str, files: &mut F) -> bool {
    let Ok(bytes) = read_file(alloc, files, from, 1000) else {
        return false;
    };
    match files.sink(to) {
        Made::Here(mut sink) => {
            let all = write_all(&mut sink, &bytes);
            files.close_sink(sink);
            all
        }
        Made::Failed => false,
    }
}

// The file `from`, which has four bytes.
fn text_file(alloc: Global) -> Result<NamedSource, AllocError>
    ensures { IfOk result (λ file. IsNewSource file.source) }
{
    Ok(NamedSource {
        name: Bytes::of(b"from".to_vec(alloc)?),
        source: MemSource::new(alloc, b"text".to_vec(alloc)?, Vec::new(alloc))?,
    })
}

// The file `to`, which has room for as many.
fn new_file(alloc: Global) -> Result<NamedSink, AllocError>
    ensures { IfOk result (λ file. IsNewSink file.sink) }
{
    Ok(NamedSink {
        name: Bytes::of(b"to".to_vec(alloc)?),
        sink: MemSink::new(alloc, 4, Vec::new(alloc))?,
    })
}

// Files in memory, these two.
fn both_files(alloc: Global) -> Result<MemFiles, AllocError> {
    let sources = vec![in alloc; text_file(alloc)?]?;
    let sinks = vec![in alloc; new_file(alloc)?]?;
    let disks = Vec::new(alloc);
    MemFiles::new(alloc, sources, sinks, disks, 2, Vec::new(alloc), 0, 0, 0)
}

#[test]
fn a_file_is_copied(rt: HostRuntime) -> Result<(), Fail> {
    let mut files = both_files(rt.alloc())?;
    assert!(rt; copy_file(rt.alloc(), "from", "to", &mut files));
    assert!(rt;
        matches!(files.sinks_back(), [copied] if copied.sink.written() == b"text".as_slice())
    );
    Ok(())
}
