//! The output line of a piece of work, before it may be written.

ghost use Rattle.std.specs.Prelude.{◌≡◌, []};

use ctl_io::{FaultCount, Sink, Write};
use std::alloc::Global;
use std::marker::Model;

/// An output line, whole in memory. It takes what memory it needs, so a write fails where that is wanting.
#[derive(Drop)]
pub(crate) struct UnwrittenLine {
    bytes: Vec<u8>,
    faults: FaultCount,
}

impl Model for UnwrittenLine {
    ghost use Rattle.record_replay.specs.KeptInside.{LineData};

    ghost Value = { LineData };

    ghost view = { λ line. record { text = line.bytes.items; faults = line.faults } };
}

impl UnwrittenLine {
    // No line.
    pub(crate) fn new(alloc: Global) -> UnwrittenLine {
        UnwrittenLine {
            bytes: Vec::new(alloc),
            faults: FaultCount::new(),
        }
    }

    // The line, and nothing where none was put.
    pub(crate) fn bytes(&self) -> &[u8]
        ensures { result.now ≡ self.now.text }
    {
        &self.bytes
    }

    // No line again.
    pub(crate) fn clear(&mut self)
        ensures { self.new.text ≡ [] }
    {
        self.bytes.clear();
    }
}

impl Sink for UnwrittenLine {
    ghost use Rattle.std.specs.Prelude.{Some};

    ghost written = { λ line. Some line.text };

    ghost faults = { λ line. line.faults };

    fn write(&mut self, bytes: &[u8]) -> Write {
        if self.bytes.extend_from_slice(bytes).is_err() {
            self.faults.raise();
            return Write::Failed;
        }
        Write::Took(bytes.len())
    }
}
