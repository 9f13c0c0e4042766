//! What is asked of a machine.

ghost use Rattle.std.specs.Prelude.{◌≡◌, ℕ, ◌≤◌, [], length, IsTrue};
ghost use mathlib.Core.Logic.{◌↔◌};
ghost use Rattle.history_lock.specs.Step.{Stepped};

use crate::out_box::OutBox;

/// A state that takes one request at a time. What a request leaves and how it is answered is a function of the state and
/// the request alone.
pub trait Machine {
    type Request;

    type Answer;

    // What a request leaves, and its answers.
    ghost step: { Self → Self.Request → Stepped Self Self.Answer };

    // Which requests the machine takes.
    ghost Fits: { Self → Self.Request → Type 0 };

    // The most answers that a step gives.
    ghost room: { Self → ℕ };

    /// The most answers that a step gives.
    fn room(&self) -> usize
        ensures { result ≡ room self.now };

    /// Whether the machine takes a request.
    fn fits(&self, request: &Self::Request) -> bool
        ensures { IsTrue result ↔ Fits self.now request.now };

    /// Works a request, and puts its answers into the empty box. It takes no memory.
    fn step(&mut self, request: &Self::Request, out: &mut OutBox<Self::Answer>)
        requires fits { Fits self.old request.now }
        requires empty { out.old.items ≡ [] }
        requires places { room self.old ≤ out.old.places }
        ensures state { self.new ≡ (step self.old request.now).state }
        ensures answers { out.new.items ≡ (step self.old request.now).answers }
        ensures at_most { length out.new.items ≤ room self.old }
        ensures places { out.new.places ≡ out.old.places }
        ensures room { room self.new ≡ room self.old }
        ensures goes_on_fitting { (other : Self.Request) →
            Fits self.old other → Fits self.new other };
}
