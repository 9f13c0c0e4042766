//! The owners of all destinations.

ghost use Rattle.std.specs.Prelude.{◌≡◌, ◌<◌, ◌↔◌, false, IfOk};
ghost use Rattle.std.specs.Bool.{OnFalse};
ghost use Rattle.std.specs.FinMap.{empty, get};
ghost use Rattle.protects.specs.Owners.{allows, taken, may_lift, lifted, IsForeign, IsKeptFrom};

use number_tables::NumberMap;
use plant_config::DestId;
use std::alloc::{AllocError, Global};
use std::marker::Model;

/// Which device protects each destination of a plant. A contract sees the finite map from destinations to devices, and
/// how many destinations there is room for.
#[derive(Debug, Drop)]
pub struct Protects {
    owners: NumberMap<u16>,
}

impl Model for Protects {
    ghost use Rattle.std.specs.Prelude.{ℕ};
    ghost use Rattle.std.specs.Coded.{coded_ℕ};
    ghost use Rattle.number_tables.specs.Table.{Table, code};

    ghost Value = { Table ℕ };

    ghost coded = { code coded_ℕ };

    ghost view = { λ protects. protects.owners };
}

impl Protects {
    /// Every destination is unprotected, and there is room for so many.
    pub fn new(alloc: Global, destinations: u32) -> Result<Protects, AllocError>
        ensures free { IfOk result (λ protects. protects.entries ≡ empty) }
        ensures room { IfOk result (λ protects. protects.room ≡ destinations) }
    {
        let owners = NumberMap::new(alloc, destinations as usize)?;
        Ok(Protects { owners })
    }

    /// The device that protects a destination, `None` where it is unprotected.
    pub fn owner(&self, dest: DestId) -> Option<u16>
        ensures { result ≡ get self.now.entries dest }
    {
        self.owners.get(dest.get())
    }

    /// Whether no other device than this protects a destination.
    pub fn allows(&self, device: u16, dest: DestId) -> bool
        ensures allowed { result ≡ allows self.now.entries device dest }
        ensures refused { (result ≡ false) ↔ IsForeign self.now.entries device dest }
    {
        self.owner(dest).is_none_or(|owner| owner == device)
    }

    /// A device protects a destination that is unprotected or its own, and owns it from now on. Else it is refused, and
    /// nothing changes.
    pub fn protect(&mut self, device: u16, dest: DestId) -> bool
        requires { dest < self.old.room }
        ensures allowed { result ≡ allows self.old.entries device dest }
        ensures refused { (result ≡ false) ↔ IsForeign self.old.entries device dest }
        ensures owners { self.new.entries ≡ taken self.old.entries device dest }
        ensures room { self.new.room ≡ self.old.room }
        ensures same { OnFalse result (self.new ≡ self.old) }
    {
        if !self.allows(device, dest) {
            return false;
        }
        self.owners.set(dest.get(), Some(device));
        true
    }

    /// A device lifts the protect of a destination that is unprotected or its own, and a master any. The destination is
    /// unprotected from now on. Else the device is refused, and nothing changes.
    pub fn lift(&mut self, device: u16, master: bool, dest: DestId) -> bool
        requires { dest < self.old.room }
        ensures allowed { result ≡ may_lift self.old.entries device master dest }
        ensures refused { (result ≡ false) ↔ IsKeptFrom self.old.entries device master dest }
        ensures owners { self.new.entries ≡ lifted self.old.entries device master dest }
        ensures room { self.new.room ≡ self.old.room }
        ensures same { OnFalse result (self.new ≡ self.old) }
    {
        if !master && !self.allows(device, dest) {
            return false;
        }
        self.owners.set(dest.get(), None);
        true
    }
}
