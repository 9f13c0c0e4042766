//! A sink for output that nobody wants.

ghost use Rattle.std.specs.Prelude.{◌≡◌, None, length};

use crate::{Sink, Write};

/// A sink that takes everything, never fails and shows nothing.
#[derive(Clone, Copy, Debug, Default)]
pub struct Dropped;

impl Dropped {
    /// Takes all the bytes.
    pub fn take(&self, bytes: &[u8]) -> Write
        ensures { result ≡ Write.Took (length bytes.now) }
    {
        Write::Took(bytes.len())
    }
}

impl Sink for Dropped {
    ghost written = { λ _. None };

    ghost faults = { λ _. 0 };

    fn write(&mut self, bytes: &[u8]) -> Write {
        self.take(bytes)
    }
}
