//! The adapter over an open file as a disk.

ghost use Rattle.std.specs.Prelude.{◌≡◌, None};

use crate::system::answers::did_answer;
use crate::system::attempts::call_again;
use crate::{Did, Disk, FaultCount};
use std::fs::OpenFile;
use std::os::unix::fs::FileExt;

/// A disk over an open file. It shows no bytes and no name. A read that the file ends in has failed.
#[derive(Drop)]
pub struct StdDisk<F> {
    file: F,
    size: u64,
    faults: FaultCount,
}

impl<F: FileExt + OpenFile> StdDisk<F> {
    /// The first `size` bytes of the file. Where it has fewer, reads behind its end fail.
    pub fn new(file: F, size: u64) -> StdDisk<F>
        ensures size { result.size ≡ size }
        ensures faults { result.faults ≡ 0 }
    {
        StdDisk {
            file,
            size,
            faults: FaultCount::new(),
        }
    }

    /// How often a call failed. The count stands still at its type's end.
    pub fn faults(&self) -> u64
        ensures { result ≡ self.now.faults }
    {
        self.faults.count()
    }
}

impl<F: FileExt + OpenFile> Disk for StdDisk<F> {
    ghost use Rattle.std.proofs.Common.{refl};

    ghost size = { λ d. d.size };

    ghost contents = { λ _. None };

    ghost may_leave = { λ _ _. ⊥ };

    ghost moment = { λ _. 0 };

    ghost left_since = { λ _ _ _. ⊥ };

    ghost shown_since = { λ _ _ _. ⊥ };

    ghost past = { λ _. None };

    ghost faults = { λ d. d.faults };

    ghost shown_may_stay = { λ _. tt };

    ghost as_many = { λ _. tt };

    ghost made = { λ _. refl };

    ghost made_shown = { λ _. tt };

    ghost counts_now = { λ _ _ _ _ left. left };

    ghost only_now = { λ _ _ left. left };

    ghost shows_now = { λ _ _ _. tt };

    ghost shows_alone = { λ _ _ shown. absurd shown };

    ghost shown_left = { λ _ _ _ shown. shown };

    fn size(&self) -> u64 {
        self.size
    }

    fn read(&mut self, at: u64, into: &mut [u8]) -> Did {
        let made = self.file.read_exact_at(into, at);
        did_answer(made, &mut self.faults)
    }

    fn write(&mut self, at: u64, bytes: &[u8]) -> Did {
        let made = self.file.write_all_at(bytes, at);
        did_answer(made, &mut self.faults)
    }

    fn sync(&mut self) -> Did {
        let made = call_again(|| self.file.sync_data());
        did_answer(made, &mut self.faults)
    }
}
