//! Protects: which device has a destination, and how panels protect and lift.

ghost use Rattle.std.specs.Prelude.{◌≡◌, ◌<◌, ◌≤◌};
ghost use Rattle.swp08_messages.specs.declared.message.Message.TheVariants.{ProtectTally};
ghost use Rattle.plant_config.specs.Plant.{destinations_of};
ghost use Rattle.plant_config.specs.Limits.{last_device};
ghost use Rattle.protects.specs.Owners.{allows, may_lift, taken, lifted};
ghost use Rattle.swp08_messages.specs.Field.{dests};
ghost use Rattle.plant_core.specs.State.{IsValid, device_of, is_master, owner_at};
ghost use Rattle.plant_core.specs.Short.{IsShortDest};
ghost use Rattle.plant_core.specs.Protecting.{owner_told, with_owners, protected, unprotected};
ghost use Rattle.plant_core.specs.AnswerInside.{owner_told_from};
ghost use Rattle.plant_core.specs.Step.{dest_of};
ghost use Rattle.plant_core.specs.AnswerInside.{SaysJust};

use crate::state::PlantState;
use change_boards::Sort;
use plant_config::{DestId, PanelNo};
use swp08_messages::{Message, Point};

impl PlantState {
    // The device that a panel acts for.
    pub(crate) fn device_of(&self, panel: PanelNo) -> u16
        ensures device { result ≡ device_of self.now.plant panel }
        ensures within { result ≤ last_device }
    {
        match self.plant.panels().get(panel.get() as usize) {
            Some(found) => found.device,
            None => 0,
        }
    }

    // Whether a panel may lift any protect, and use the ties that are kept for masters.
    pub(crate) fn is_master(&self, panel: PanelNo) -> bool
        ensures { result ≡ is_master self.now.plant panel }
    {
        match self.plant.panels().get(panel.get() as usize) {
            Some(found) => found.master,
            None => false,
        }
    }

    // The device that protects a place, `None` also where the plant has no such place.
    fn owner_at(&self, at: Point) -> Option<u16>
        ensures owner { result ≡ owner_at self.now at }
        ensures valid { IsValid self.now }
    {
        self.owner(self.dest_of(at)?)
    }

    // The owner of a place as a tally.
    #[inline(never)]
    pub(crate) fn protect_tally(&self, at: Point) -> Message
        ensures tally { result ≡ owner_told ProtectTally at (owner_at self.now at) }
        ensures valid { IsValid self.now }
    {
        let owner = self.owner_at(at);
        Message::ProtectTally {
            at,
            owned: owner.is_some(),
            device: owner.unwrap_or(0),
        }
    }

    // Protects a destination for the panel's device, where no other device protects it, and answers so; else answers with
    // the owner.
    #[inline(never)]
    pub(crate) fn protect(&mut self, panel: PanelNo, at: Point) -> Message
        requires { at.dest < dests }
        ensures state { self.new ≡ (protected self.old panel at (dest_of self.old at)).state }
        ensures answer { SaysJust (protected self.old panel at (dest_of self.old at)) result }
        ensures valid { IsValid self.old }
    {
        let device = self.device_of(panel);
        match self.dest_of(at) {
            Some(dest) if self.take(panel, device, dest) => Message::ProtectConnected {
                at,
                owned: true,
                device,
            },
            _ => self.protect_tally(at),
        }
    }

    // Lifts the protect of a destination where no other device protects it, or the panel is a master, and answers so; else
    // answers with the owner.
    #[inline(never)]
    pub(crate) fn unprotect(&mut self, panel: PanelNo, at: Point) -> Message
        requires { at.dest < dests }
        ensures state { self.new ≡ (unprotected self.old panel at (dest_of self.old at)).state }
        ensures answer { SaysJust (unprotected self.old panel at (dest_of self.old at)) result }
        ensures valid { IsValid self.old }
    {
        match self.dest_of(at) {
            Some(dest) if self.lift(panel, dest) => Message::ProtectDisconnected {
                at,
                owned: false,
                device: 0,
            },
            _ => self.protect_tally(at),
        }
    }

    // Protects a destination for a device where no other device protects it, gives notice of it to the others where its
    // owner changed, and says whether it is protected now.
    fn take(&mut self, asker: PanelNo, device: u16, dest: DestId) -> bool
        requires dest { dest < destinations_of self.old.plant }
        requires short { IsShortDest self.old.plant dest }
        requires device { device ≤ last_device }
        ensures state { self.new ≡ with_owners self.old asker dest
            (taken self.old.owners device dest) }
        ensures taken { result ≡ allows self.old.owners device dest }
    {
        let before = self.owner(dest);
        let taken = self.own(device, dest);
        self.tell_owner(asker, dest, before);
        taken
    }

    // Lifts the protect of a destination where no other device protects it or the panel is a master, gives notice of it to
    // the others where its owner changed, and says whether it is unprotected now.
    fn lift(&mut self, asker: PanelNo, dest: DestId) -> bool
        requires dest { dest < destinations_of self.old.plant }
        requires short { IsShortDest self.old.plant dest }
        ensures state { self.new ≡ with_owners self.old asker dest
            (lifted self.old.owners (device_of self.old.plant asker)
            (is_master self.old.plant asker) dest) }
        ensures lifted { result ≡ may_lift self.old.owners (device_of self.old.plant asker)
            (is_master self.old.plant asker) dest }
    {
        let device = self.device_of(asker);
        let master = self.is_master(asker);
        let before = self.owner(dest);
        let lifted = self.disown(device, master, dest);
        self.tell_owner(asker, dest, before);
        lifted
    }

    // Protects a destination for a device where no other device protects it.
    fn own(&mut self, device: u16, dest: DestId) -> bool
        requires dest { dest < destinations_of self.old.plant }
        requires short { IsShortDest self.old.plant dest }
        requires device { device ≤ last_device }
        ensures state { self.new ≡ record self.old {
          owners = taken self.old.owners device dest;
        } }
        ensures taken { result ≡ allows self.old.owners device dest }
    {
        self.protects.protect(device, dest)
    }

    // Lifts the protect of a destination where no other device protects it, or for a master.
    fn disown(&mut self, device: u16, master: bool, dest: DestId) -> bool
        requires { dest < destinations_of self.old.plant }
        ensures state { self.new ≡ record self.old {
          owners = lifted self.old.owners device master dest;
        } }
        ensures lifted { result ≡ may_lift self.old.owners device master dest }
    {
        self.protects.lift(device, master, dest)
    }

    // Gives notice of a destination's owner to all panels but the asker, where it isn't the one of before.
    fn tell_owner(&mut self, asker: PanelNo, dest: DestId, before: Option<u16>)
        requires dest { dest < destinations_of self.old.plant }
        requires short { IsShortDest self.old.plant dest }
        ensures { self.new ≡ owner_told_from before self.old asker dest }
    {
        if self.owner(dest) != before {
            self.give_notice(asker, dest, Sort::Protect);
        }
    }
}
