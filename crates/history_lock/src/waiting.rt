//! How a caller waits for its turn, and how whoever ends a turn wakes it.

ghost use Rattle.std.specs.Prelude.{◌≡◌};

use crate::machine::Machine;
use crate::rule::Top;
use std::hint::spin_loop;
use std::sync::Wait;
use std::sync::atomic::{AtomicU64, Ordering};

// How often a caller looks again before it sleeps: for a few microseconds at most.
const LOOKS: u32 = 64;

/// Waits until `serving` isn't what was read; it may also return sooner. A turn is mostly short, so a caller looks again at
/// once at first, and then says for the end of which turn it sleeps, and sleeps.
pub fn wait<M: Machine, R: Wait>(rt: &R, top: &Top<M>, awaited: &AtomicU64, serving: u64)
    requires { top.now.table_id.words ≡ 2 }
{
    for _ in 0..LOOKS {
        spin_loop();
        if top.peek(0) != serving {
            return;
        }
    }
    awaited.fetch_max(serving.saturating_add(1), Ordering::SeqCst);
    top.park(rt, 0, (serving & 0xffff_ffff) as u32);
}

/// Wakes whoever sleeps for the end of this turn. All of them, since one alone could be the wrong one. Whoever hasn't said
/// yet that it will sleep finds that `serving` rose, and doesn't.
pub fn wake<M: Machine>(top: &Top<M>, awaited: &AtomicU64, ended: u64)
    requires { top.now.table_id.words ≡ 2 }
{
    if awaited.load(Ordering::SeqCst) > ended {
        top.wake_all(0);
    }
}
