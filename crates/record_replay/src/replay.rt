//! A script's lines are all read, and then their works are done.

ghost use Rattle.std.specs.Prelude.{◌≡◌, Err, ℕ, OnOk, IsErrOf};
ghost use Rattle.ctl_io.specs.Faults.{count_after};
ghost use Rattle.record_replay.specs.declared.replay.ReplayFault.TheVariants.{NoMemory};
ghost use Rattle.record_replay.specs.Script.{IsFirstBad};
ghost use Rattle.record_replay.specs.Replay.{output_failed};
ghost use Rattle.record_replay.specs.TiedReplay.{HasReplayed, HasReplayedFront};

use crate::no_port::NoPort;
use crate::streamed::{StreamedFault, replay_script_to};
use ctl_io::Sink;
use plant_config::Plant;
use plant_names::Names;
use std::alloc::{AllocError, Global};

/// Why a replay ended early.
#[derive(Clone, Copy, Debug, PartialEq, Eq)]
pub enum ReplayFault {
    NoMemory,
    /// The line of this number, counted from 1, is the first that has no form.
    BadLine(u64),
    /// A write of the output failed.
    OutputFault,
}

impl From<AllocError> for ReplayFault {
    ghost from_gives = { λ _ fault. fault ≡ NoMemory };

    fn from(_: AllocError) -> Self {
        ReplayFault::NoMemory
    }
}

/// Does the works of a script's lines in order on one plant, from its start, with one session a panel, and writes an output
/// line for each. The names are those of the plant, by which takes are read. All memory is taken before the first line is
/// worked.
pub fn replay_script<K: Sink>(
    alloc: Global,
    plant: &Plant,
    names: &Names,
    script: &[u8],
    out: &mut K,
) -> Result<(), ReplayFault>
    requires names { names.now ≡ plant.now }
    ensures ok { OnOk result
        (HasReplayed plant.now script.now (K.written out.old) (K.written out.new)) }
    ensures bad_line { (number : ℕ) → result ≡ Err (ReplayFault.BadLine number)
        → IsFirstBad plant.now script.now number }
    ensures output_fault { IsErrOf result ReplayFault.OutputFault
        → HasReplayedFront plant.now script.now (K.written out.old) (K.written out.new) }
    // Nothing was written at a bad line, and where memory ran out.
    ensures same { (number : ℕ) → result ≡ Err (ReplayFault.BadLine number)
        → K.written out.new ≡ K.written out.old }
    ensures no_memory { IsErrOf result ReplayFault.NoMemory
        → K.written out.new ≡ K.written out.old }
    // The output's count of faults rose by one at a fault of the output, and else stayed.
    ensures count { K.faults out.new ≡ count_after (output_failed result) (K.faults out.old) }
{
    match replay_script_to(alloc, plant, names, script, out, &mut NoPort) {
        Ok(()) => Ok(()),
        Err(StreamedFault::NoMemory) => Err(ReplayFault::NoMemory),
        Err(StreamedFault::BadLine(number)) => Err(ReplayFault::BadLine(number)),
        Err(StreamedFault::OutputFault) => Err(ReplayFault::OutputFault),
        // No send of this port fails.
        Err(StreamedFault::PortFault) => unreachable!(),
    }
}
