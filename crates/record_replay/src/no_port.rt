//! A port where nobody listens, for a replay that is only written.

use ctl_net::{DisplayPort, Sent};

/// Takes every packet and keeps none, so that a replay to it costs nothing.
#[derive(Clone, Copy)]
pub(crate) struct NoPort;

impl DisplayPort for NoPort {
    ghost use Rattle.std.specs.Prelude.{None};

    // No net opened it.
    ghost opening = { λ _. None };

    ghost takes = { λ _. Unit {0} };

    // It shows no packets.
    ghost was_sent = { λ _ _. Unit {0} };

    ghost faults = { λ _. 0 };

    #[inline(always)]
    fn send(&mut self, _: &[u8]) -> Sent {
        Sent::Done
    }

    fn pause(&mut self) {}
}
