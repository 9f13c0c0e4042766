//! Where a session's bytes go.

ghost use Rattle.std.specs.Prelude.{◌≡◌, ℕ, List, [], ◌++◌, refl};
ghost use Rattle.std.proofs.Common.{◌∙◌};
ghost use Rattle.std.specs.Bool.{OnFalse, OnTrue};
ghost use Rattle.panel_session.specs.Answering.{FailedOver, GivenOver};
ghost use Rattle.panel_session.specs.AnsweringLaws.{given_over_none, given_over_more};

use crate::engine::drain::Drain;

/// A place that bytes are given to, in order, until it fails.
pub trait Outlet {
    // What it was lent it still has.
    ghost IsSame: { Self → Self → Type 0 };

    // These bytes were given to an outlet, which then is so.
    ghost Given: { Self → List ℕ → Self → Type 0 };

    // An outlet failed when it was given these bytes, and then is so.
    ghost Failed: { Self → List ℕ → Self → Type 0 };

    /// Takes these bytes behind those before, or a front of them where it fails, and answers which.
    fn give(&mut self, bytes: &[u8]) -> bool
        ensures same { IsSame self.old self.new }
        ensures given { OnTrue result (Given self.old bytes.now self.new) }
        ensures failed { OnFalse result (Failed self.old bytes.now self.new) };

    ghost same_none: { (outlet : Self) → IsSame outlet outlet };

    ghost same_more: { (first next last : Self) → IsSame first next → IsSame next last
        → IsSame first last };

    // Nothing is given to an outlet that stays as it is.
    ghost given_none: { (outlet : Self) → Given outlet [] outlet };

    // What is given in two parts is given as a whole.
    ghost given_more: { (first next last : Self) (bytes more : List ℕ)
        → Given first bytes next → Given next more last → Given first (bytes ++ more) last };
}

/// The half of a link that is written.
#[derive(Drop)]
pub(crate) struct WriteHalf<'l, L: Drain> {
    pub(crate) link: &'l mut L,
}

impl<L: Drain> Outlet for WriteHalf<'_, L> {
    ghost IsSame = { λ first last. last.link.ghost_name ≡ first.link.ghost_name };

    ghost Given = { GivenOver L.written L.faults L.name L.read_half };

    ghost Failed = { FailedOver L.written L.faults L.name L.read_half };

    #[inline]
    fn give(&mut self, bytes: &[u8]) -> bool {
        self.link.take(bytes)
    }

    ghost same_none = { λ outlet. refl };

    ghost same_more = { λ first next last one other. other ∙ one };

    ghost given_none = { given_over_none L.written L.faults L.name L.read_half };

    ghost given_more = { given_over_more L.written L.faults L.name L.read_half };
}
