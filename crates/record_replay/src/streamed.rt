//! A replay whose display polls are sent to a port.

ghost use Rattle.std.specs.Prelude.{◌≡◌, ◌≢◌, Err, [], ℕ, OnOk, IsErrOf};
ghost use Rattle.ctl_io.specs.Faults.{count_after};
ghost use Rattle.record_replay.specs.declared.streamed.StreamedFault.TheVariants.{NoMemory};
ghost use Rattle.record_replay.specs.Script.{HasWorks, IsFirstBad};
ghost use Rattle.record_replay.specs.Replay.{begun};
ghost use Rattle.record_replay.specs.ReplayerInside.{StandsAt};
ghost use Rattle.record_replay.specs.Streamed.{HasStreamed, HasStreamedFront, HasStoppedAtPort};
ghost use Rattle.record_replay.specs.Streamed.{TakesLamps, StaysBoth};
ghost use Rattle.ctl_net.specs.Port.{SendsOn};
ghost use Rattle.record_replay.specs.Streamed.{stream_failed, PortCounts};

use crate::check::check_lines;
use crate::digits::Digits;
use crate::output::Output;
use crate::replayer::Replayer;
use ctl_io::Sink;
use ctl_net::DisplayPort;
use line_text::Room;
use plant_config::Plant;
use plant_names::Names;
use std::alloc::{AllocError, Global};

/// Why a replay that was sent to a port ended early.
#[derive(Clone, Copy, Debug, PartialEq, Eq)]
pub enum StreamedFault {
    NoMemory,
    /// The line of this number, counted from 1, is the first that has no form.
    BadLine(u64),
    /// A write of the output failed.
    OutputFault,
    /// A send of the port failed.
    PortFault,
}

impl From<AllocError> for StreamedFault {
    ghost from_gives = { λ _ fault. fault ≡ NoMemory };

    fn from(_: AllocError) -> Self {
        StreamedFault::NoMemory
    }
}

/// `replay_script`, with the port sent what the displays are told: before the output line of each display poll that was
/// answered by lamps, the packet of these. The first send that fails ends the replay, once the lines before are written.
/// Where one of these writes fails too, that is the fault that is answered: a failed write of the output comes before all.
pub fn replay_script_to<K: Sink, P: DisplayPort>(
    alloc: Global,
    plant: &Plant,
    names: &Names,
    script: &[u8],
    out: &mut K,
    port: &mut P,
) -> Result<(), StreamedFault>
    requires names { names.now ≡ plant.now }
    requires takes { TakesLamps plant.now P.takes }
    ensures ok { OnOk result (HasStreamed plant.now script.now
        (K.written out.old) (K.written out.new) (SendsOn P.was_sent port.old port.new)) }
    ensures bad_line { (number : ℕ) → result ≡ Err (StreamedFault.BadLine number)
        → IsFirstBad plant.now script.now number }
    ensures output_fault { IsErrOf result StreamedFault.OutputFault
        → HasStreamedFront plant.now script.now
        (K.written out.old) (K.written out.new) (SendsOn P.was_sent port.old port.new)
        (P.faults port.old) (P.faults port.new) }
    ensures port_fault { IsErrOf result StreamedFault.PortFault
        → HasStoppedAtPort plant.now script.now
        (K.written out.old) (K.written out.new) (SendsOn P.was_sent port.old port.new) }
    // Nothing was written or sent at a bad line, and where memory ran out.
    ensures same { (number : ℕ) → result ≡ Err (StreamedFault.BadLine number)
        → StaysBoth (K.written out.old) (K.written out.new) port.old port.new }
    ensures no_memory { IsErrOf result StreamedFault.NoMemory
        → StaysBoth (K.written out.old) (K.written out.new) port.old port.new }
    // The counts of faults tell which of the two failed. A failed write is told whatever else stands.
    ensures count { K.faults out.new ≡ count_after (stream_failed result) (K.faults out.old) }
    ensures port_count { PortCounts result (P.faults port.old) (P.faults port.new) }
{
    let mut digits = Digits::new(alloc)?;
    if let Some(number) = check_lines(&mut digits, plant, names, script) {
        return Err(StreamedFault::BadLine(number));
    }
    replay_lines(alloc, plant, names, &mut digits, script, out, port)
}

// So where each line has a form, with the plant's names.
fn replay_lines<K: Sink, P: DisplayPort>(
    alloc: Global,
    plant: &Plant,
    names: &Names,
    digits: &mut Digits,
    script: &[u8],
    out: &mut K,
    port: &mut P,
) -> Result<(), StreamedFault>
    requires names { names.now ≡ plant.now }
    requires form { HasWorks plant.now script.now }
    requires takes { TakesLamps plant.now P.takes }
    ensures ok { OnOk result (HasStreamed plant.now script.now
        (K.written out.old) (K.written out.new) (SendsOn P.was_sent port.old port.new)) }
    ensures no_bad_line { (number : ℕ) → result ≢ Err (StreamedFault.BadLine number) }
    ensures output_fault { IsErrOf result StreamedFault.OutputFault
        → HasStreamedFront plant.now script.now
        (K.written out.old) (K.written out.new) (SendsOn P.was_sent port.old port.new)
        (P.faults port.old) (P.faults port.new) }
    ensures port_fault { IsErrOf result StreamedFault.PortFault
        → HasStoppedAtPort plant.now script.now
        (K.written out.old) (K.written out.new) (SendsOn P.was_sent port.old port.new) }
    ensures no_memory { IsErrOf result StreamedFault.NoMemory
        → StaysBoth (K.written out.old) (K.written out.new) port.old port.new }
    ensures count { K.faults out.new ≡ count_after (stream_failed result) (K.faults out.old) }
    ensures port_count { PortCounts result (P.faults port.old) (P.faults port.new) }
{
    let mut room = Room::new(alloc)?;
    let mut replayer = Replayer::start(alloc, plant, names)?;
    work_lines(script, names, digits, &mut replayer, &mut room, out, port)
}

// So by a replayer for which nothing happened yet, and with room that is empty. They are lent, so that no exit lets them go.
fn work_lines<K: Sink, P: DisplayPort>(
    script: &[u8],
    names: &Names,
    digits: &mut Digits,
    replayer: &mut Replayer<'_>,
    room: &mut Room,
    out: &mut K,
    port: &mut P,
) -> Result<(), StreamedFault>
    requires names { names.now ≡ replayer.old.plant.now }
    requires form { HasWorks replayer.old.plant.now script.now }
    requires takes { TakesLamps replayer.old.plant.now P.takes }
    requires begun { StandsAt replayer.old.plant.now replayer.old
        (begun replayer.old.plant.now) 0 }
    requires empty { room.old ≡ [] }
    ensures ok { OnOk result (HasStreamed replayer.old.plant.now script.now
        (K.written out.old) (K.written out.new) (SendsOn P.was_sent port.old port.new)) }
    ensures no_bad_line { (number : ℕ) → result ≢ Err (StreamedFault.BadLine number) }
    ensures output_fault { IsErrOf result StreamedFault.OutputFault
        → HasStreamedFront replayer.old.plant.now script.now
        (K.written out.old) (K.written out.new) (SendsOn P.was_sent port.old port.new)
        (P.faults port.old) (P.faults port.new) }
    ensures port_fault { IsErrOf result StreamedFault.PortFault
        → HasStoppedAtPort replayer.old.plant.now script.now
        (K.written out.old) (K.written out.new) (SendsOn P.was_sent port.old port.new) }
    ensures no_want { result ≢ Err StreamedFault.NoMemory }
    ensures count { K.faults out.new ≡ count_after (stream_failed result) (K.faults out.old) }
    ensures port_count { PortCounts result (P.faults port.old) (P.faults port.new) }
{
    let mut output = Output::new(room, out);
    let sent = replayer.work(script, names, digits, &mut output, port);
    if !output.finish() {
        return Err(StreamedFault::OutputFault);
    }
    if sent {
        Ok(())
    } else {
        Err(StreamedFault::PortFault)
    }
}
