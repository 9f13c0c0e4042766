//! A use of `ctl_net`: what comes over a link goes back, over any link.

use ctl_io::{Bytes, write_all};
use ctl_net::{Link, LinkEvent, LinkRead, MemLink};
use std::alloc::{AllocError, Global};
use std::test::Fail;

// Sends back what comes with the next 100 reads, as long as the link holds.
fn echo<L: Link>(link: &mut L) {
    let mut into = [0; 4];
    for _ in 0..100 {
        match link.read(&mut into) {
            LinkRead::Got(n) => {
                if !write_all(link, &into[..n]) {
                    return;
                }
            }
            LinkRead::Idle => {}
            LinkRead::End | LinkRead::Failed => return,
        }
    }
}

fn piece(alloc: Global, bytes: &[u8]) -> Result<LinkEvent, AllocError> {
    Ok(LinkEvent::Piece(Bytes::of(bytes.to_vec(alloc)?)))
}

// A link in memory over which two pieces come, and between them nothing for a while.
fn two_pieces(alloc: Global) -> Result<MemLink, AllocError> {
    let (first, second) = (piece(alloc, b"hello")?, piece(alloc, b"you")?);
    let events = vec![in alloc; first, LinkEvent::Idle, second]?;
    MemLink::new(alloc, events, 8, Vec::new(alloc), Vec::new(alloc))
}

#[test]
fn what_comes_goes_back(rt: HostRuntime) -> Result<(), Fail> {
    let mut link = two_pieces(rt.alloc())?;
    echo(&mut link);
    assert!(rt; link.written() == b"helloyou".as_slice() && link.idles() == 1);
    Ok(())
}
