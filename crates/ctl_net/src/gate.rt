//! Gates that a session passes at its start and at its end.

use std::sync::Wait;

/// Where a gate is passed, with the number of the panel.
#[derive(Clone, Copy, Debug, PartialEq, Eq)]
pub enum GatePoint {
    /// A session of the panel starts.
    Start(u32),
    /// A session of the panel is done.
    Done(u32),
}

/// What sessions pass at their starts and ends. It may hold them up, as a test does that shows which of them run at the
/// same time, and promises nothing. Threads share it.
pub trait Gate: Sync {
    /// Passes a point, as soon as the gate lets it.
    fn pass<R: Wait>(&self, rt: &R, point: GatePoint);
}

/// A gate that holds nobody up.
#[derive(Clone, Copy, Debug, Default)]
pub struct OpenGate;

impl Gate for OpenGate {
    fn pass<R: Wait>(&self, _rt: &R, _point: GatePoint) {}
}
