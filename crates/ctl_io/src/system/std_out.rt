//! The adapter over the standard output.

ghost use Rattle.std.specs.Prelude.{◌≡◌, None};

use crate::system::answers::write_answer;
use crate::system::attempts::call_again;
use crate::{FaultCount, Sink, Write};

/// The standard output of a runtime. It shows no bytes, and keeps none back: each write goes out at once.
/// A write that takes no bytes has failed.
#[derive(Drop)]
pub struct StdOut<R> {
    rt: R,
    faults: FaultCount,
}

impl<R: Print> StdOut<R> {
    /// The output behind what was printed before.
    pub fn new(rt: R) -> StdOut<R>
        ensures { result.faults ≡ 0 }
    {
        StdOut {
            rt,
            faults: FaultCount::new(),
        }
    }

    /// How often a write failed. The count stands still at its type's end.
    pub fn faults(&self) -> u64
        ensures { result ≡ self.now.faults }
    {
        self.faults.count()
    }
}

impl<R: Print + Send> Sink for StdOut<R> {
    ghost written = { λ _. None };

    ghost faults = { λ s. s.faults };

    fn write(&mut self, bytes: &[u8]) -> Write {
        let written = call_again(|| self.rt.write_some(bytes));
        write_answer(written, &mut self.faults)
    }
}
