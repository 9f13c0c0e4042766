//! `commands` in use: a script in memory is replayed on the bench plant.

use commands::run_quiet;
use ctl_io::{Bytes, MemFiles, MemSink, MemSource, NamedSource};
use std::alloc::{AllocError, Global};
use std::test::Fail;

// Files with a script in which panel 0 interrogates destination 5.
fn files_with_script(alloc: Global) -> Result<MemFiles, AllocError> {
    let script = b"> 0 10 02 01 00 00 05 04 F6 10 03\n".to_vec(alloc)?;
    let source = MemSource::new(alloc, script, Vec::new(alloc))?;
    let name = Bytes::of(b"first.txt".to_vec(alloc)?);
    let sources = vec![in alloc; NamedSource { name, source }]?;
    let (sinks, disks) = (Vec::new(alloc), Vec::new(alloc));
    MemFiles::new(alloc, sources, sinks, disks, 1, Vec::new(alloc), 0, 0, 0)
}

// The words of the command line.
fn command_line(alloc: Global) -> Result<Vec<String>, AllocError> {
    let mut words = Vec::new(alloc);
    for word in ["replay", "bench", "first.txt"] {
        words.push(String::from_str(alloc, word)?)?;
    }
    Ok(words)
}

#[test]
fn a_script_is_replayed(rt: HostRuntime) -> Result<(), Fail> {
    let alloc = rt.alloc();
    let words = command_line(alloc)?;
    let mut files = files_with_script(alloc)?;
    let mut out = MemSink::new(alloc, 100, Vec::new(alloc))?;
    assert_eq!(rt; run_quiet(alloc, &words, &mut files, &mut out), 0);
    // The plant acknowledges, and answers that it is parked.
    assert_eq!(rt;
        out.written(),
        b"< 0 10061002030007057F056D1003\n".as_slice()
    );
    Ok(())
}
