//! What a replay sends to a port of the displays, and what a recording of a stream tells.

use crate::in_memory::front;
use crate::studio::{STUDIO, plant_of};
use ctl_io::MemSink;
use ctl_net::MemPort;
use plant_config::Plant;
use plant_names::Names;
use record_replay::{StreamedFault, monitor_stream, replay_script_to};
use std::alloc::{AllocError, Global};
use std::process::Abort;
use std::test::Fail;

// Two displays, then one, then nothing new, and the end.
const SCRIPT: &[u8] =
    b"show 0\ntake 0 0 0\tD0\tCAM3\ntake 0 0 0\tD2\tCAM3\nshow 0\nshow 0\nleave 0\n\
leave 1\nshow 0\n";

const TOLD: &[u8] = b"* 0 1000000000000100C00000000200C0000000\n\
< 0 10061002040000000305F41003\n< 0 10061002040000020305F21003\n\
* 0 0E00000000000100C500040043414D33\n* 0 quiet\nleave 0\nleave 1\n* 0 finished\n";

const PACKETS: &[u8] = b"\x10\0\0\0\0\0\x01\0\xC0\0\0\0\x02\0\xC0\0\0\0\
\x0E\0\0\0\0\0\x01\0\xC5\0\x04\0CAM3";

// Streams, and what they tell: a packet with a pair in it, one that says too little, a packet behind noise and a rest, and
// one of no display.
const STREAMS: &[(&[u8], &[u8])] = &[
    (
        b"\xFE\x02\x0E\0\0\0\0\0\xFE\xFE\0\xC5\0\x04\0CAM3",
        b"screen 0 displays 1\nindex 254 lamps 1 1 0 brightness 3 text 43414D33\n",
    ),
    (b"\xFE\x02\x0E\0\xFE\x02\x03\0\0\0\0", b"bad Short\n"),
    (
        b"\x07\xFE\x02\x0A\0\0\0\x01\x02\x03\0\x39\0\0\0\xFE\x02\x0A\0\0",
        b"screen 513 displays 1\nindex 3 lamps 1 2 3 brightness 0 text -\n",
    ),
    (b"\xFE\x02\x04\0\0\0\x05\0", b"screen 5 displays 0\n"),
    (b"", b""),
];

// How a replay of a script to a port ends.
fn sent(
    alloc: Global,
    plant: &Plant,
    script: &[u8],
    out: &mut MemSink,
    port: &mut MemPort,
) -> Result<Result<(), StreamedFault>, AllocError> {
    let names = Names::new(alloc, plant)?;
    let ended = replay_script_to(alloc, plant, &names, script, out, port);
    Ok(ended)
}

// How a replay of the script ends; and what it tells, which packets go, and how long they are.
type Told = (
    Result<(), StreamedFault>,
    &'static [u8],
    &'static [u8],
    &'static [usize],
);

// Whether it goes so if these sends fail.
fn goes_so(
    alloc: Global,
    plant: &Plant,
    failing: &[u64],
    (ended, told, packets, lengths): Told,
) -> Result<bool, AllocError> {
    let mut out = MemSink::new(alloc, 1000, Vec::new(alloc))?;
    let mut port = MemPort::new(alloc, 100, failing.to_vec(alloc)?)?;
    let so = sent(alloc, plant, SCRIPT, &mut out, &mut port)? == ended;
    Ok(so && out.written() == told && port.bytes() == packets && port.lengths() == lengths)
}

#[test]
fn packets_are_sent_to_a_port(rt: HostRuntime) -> Result<(), Fail> {
    let studio = plant_of(rt.alloc(), STUDIO)?;
    let told = (Ok(()), TOLD, PACKETS, [18, 16].as_slice());
    let is_so = goes_so(rt.alloc(), &studio, &[], told)?;
    assert!(rt; is_so);
    Ok(())
}

// The lines before the failed send stay.
#[test]
fn a_failed_send_ends_a_replay(rt: HostRuntime) -> Result<(), Fail> {
    let studio = plant_of(rt.alloc(), STUDIO)?;
    let told = (
        Err(StreamedFault::PortFault),
        front(TOLD, 103),
        front(PACKETS, 18),
        [18].as_slice(),
    );
    let is_so = goes_so(rt.alloc(), &studio, &[1], told)?;
    assert!(rt; is_so);
    Ok(())
}

// Whether a recording of a stream tells this.
fn is_told(alloc: Global, stream: &[u8], text: &[u8]) -> Result<bool, AllocError> {
    let mut out = MemSink::new(alloc, 200, Vec::new(alloc))?;
    Ok(monitor_stream(alloc, stream, &mut out) == Ok(()) && out.written() == text)
}

// Each stream of the table tells its text.
fn are_all_told(rt: &impl Abort, alloc: Global) -> Result<(), AllocError> {
    for (stream, text) in STREAMS {
        let is_so = is_told(alloc, stream, text)?;
        assert!(rt; is_so);
    }
    Ok(())
}

#[test]
fn streams_are_told_in_lines(rt: HostRuntime) -> Result<(), Fail> {
    Ok(are_all_told(&rt, rt.alloc())?)
}
