//! What is true of all owners, not only of those that a program makes.

ghost use Rattle.std.specs.Prelude.{ℕ};
ghost use Rattle.protects.specs.Owners.{Owners};
ghost use Rattle.protects.specs.Laws.{CallsChangeOne, ForeignProtectsStay, ProtectsAreOwned};
ghost use Rattle.protects.specs.Laws.{LiftsFree};

/// A protect and a lift change no destination but the one that they name.
pub fn calls_change_one_owner()
    ensures { (owners : Owners) (device dest : ℕ) → CallsChangeOne owners device dest }
{}

/// A destination that one device protects stays so, whatever another device protects, or lifts without being a master's.
pub fn foreign_protects_stay()
    ensures { (owners : Owners) → ForeignProtectsStay owners }
{}

/// Who protects a destination owns it.
pub fn protects_are_owned()
    ensures { (owners : Owners) → ProtectsAreOwned owners }
{}

/// A lift that is allowed leaves the destination unprotected, and a master's always is.
pub fn lifts_free()
    ensures { (owners : Owners) (device dest : ℕ) → LiftsFree owners device dest }
{}
