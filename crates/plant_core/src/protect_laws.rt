//! What is true of protects in every valid state: who may protect and lift, and what a protect keeps.

ghost use Rattle.plant_core.specs.ProtectLaws.{FreePlacesAreProtected, OtherProtectsAreRefused};
ghost use Rattle.plant_core.specs.ProtectLaws.{ProtectsAreLifted, OtherLiftsAreRefused};
ghost use Rattle.plant_core.specs.ProtectLaws.{ProtectedSourcesStay, ProtectsStay};
ghost use Rattle.plant_core.specs.ProtectLaws.{StartsAreUnprotected, OutsidersAreUnprotected};

/// A panel protects a place for its device exactly where the place is in the plant and no other device protects it. Else
/// nothing changes, and the owner is the answer.
pub fn protects_are_made()
    ensures made { FreePlacesAreProtected }
    ensures refused { OtherProtectsAreRefused }
{}

/// A panel lifts the protect of a place exactly where the place is in the plant, and no other device protects it or the
/// panel is a master. Else nothing changes, and the owner is the answer.
pub fn protects_are_lifted()
    ensures lifted { ProtectsAreLifted }
    ensures refused { OtherLiftsAreRefused }
{}

/// A destination that another device protects carries what it carried, whatever a panel asks, be it a master. It stays that
/// device's unless the panel is a master.
pub fn protects_hold()
    ensures source { ProtectedSourcesStay }
    ensures owner { ProtectsStay }
{}

/// Before the first protect no place is protected, and a place that the plant doesn't have never is.
pub fn protects_begin_with_none()
    ensures first { StartsAreUnprotected }
    ensures outside { OutsidersAreUnprotected }
{}
