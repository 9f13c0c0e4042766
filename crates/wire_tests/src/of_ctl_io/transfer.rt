//! Sources read as a whole.

use ctl_io::{MemSource, WholeFault, read_whole};
use std::alloc::Global;

// How many bytes are read of so many.
fn read_of(alloc: Global, count: usize, limit: usize) -> Result<usize, WholeFault> {
    let mut source = MemSource::new(alloc, vec![in alloc; 7; count]?, Vec::new(alloc))?;
    Ok(read_whole(alloc, &mut source, limit)?.len())
}

#[test]
fn a_source_is_read_whole(rt: HostRuntime) {
    // How many bytes there are, the limit, and what is answered: a row at a limit and one past it, and one of many reads.
    for (count, limit, answer) in [
        (0, 0, Ok(0)),
        (9, 8, Err(WholeFault::TooLong)),
        (70_000, usize::MAX, Ok(70_000)),
    ] {
        assert!(rt;
            read_of(rt.alloc(), count, limit) == answer,
            "{count} bytes"
        );
    }
}
