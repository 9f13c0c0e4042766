//! A gate that shows whether two sessions run at the same time.

use ctl_net::{Gate, GatePoint};
use std::sync::Wait;
use std::sync::atomic::{AtomicU64, Ordering};

// How often a held session looks whether the other one is done, before it gives up.
const MOST_LOOKS: u32 = 1_000_000_000;

// It holds one panel's session at its start until another's is done.
#[derive(Drop)]
pub(crate) struct HoldingGate {
    held: u32,
    awaited: u32,
    // 1 once the held session has come to its start.
    came: AtomicU64,
    // 1 once the awaited session is done.
    done: AtomicU64,
    // 1 once the held one has given up.
    gave_up: AtomicU64,
}

impl HoldingGate {
    pub(crate) fn of(held: u32, awaited: u32) -> HoldingGate {
        HoldingGate {
            held,
            awaited,
            came: AtomicU64::new(0),
            done: AtomicU64::new(0),
            gave_up: AtomicU64::new(0),
        }
    }

    // Whether the held session came to its start and the awaited one to its end, which the held one saw: so they ran at the same
    // time. A gate that nobody passes shows nothing.
    pub(crate) fn shows_both(&self) -> bool {
        self.came.load(Ordering::SeqCst) == 1
            && self.done.load(Ordering::SeqCst) == 1
            && self.gave_up.load(Ordering::SeqCst) == 0
    }

    fn hold(&self) {
        for _ in 0..MOST_LOOKS {
            if self.done.load(Ordering::SeqCst) == 1 {
                return;
            }
        }
        self.gave_up.store(1, Ordering::SeqCst);
    }
}

impl Gate for HoldingGate {
    fn pass<R: Wait>(&self, _rt: &R, point: GatePoint) {
        match point {
            GatePoint::Start(panel) => {
                if panel == self.held {
                    self.came.store(1, Ordering::SeqCst);
                    self.hold();
                }
            }
            GatePoint::Done(panel) => {
                if panel == self.awaited {
                    self.done.store(1, Ordering::SeqCst);
                }
            }
        }
    }
}
