//! The heads of a store's slots: which slot stands, and which is written next.

ghost use Rattle.std.specs.Prelude.{◌≡◌};
ghost use Rattle.state_store.specs.Kept.{standing, number_where, spare_where, head_at, with_head};

use crate::slot::Slot;

/// What stands before a slot's text: its gate, and the number of the text.
#[derive(Clone, Copy, Debug, PartialEq, Eq)]
pub struct Head {
    pub is_open: bool,
    pub number: u64,
}

/// The heads of both slots.
#[derive(Clone, Copy, Debug, PartialEq, Eq)]
pub struct Heads {
    pub first: Head,
    pub second: Head,
}

impl Heads {
    /// The slot that stands: of two open slots the one with the greater number, and of equal numbers the first.
    pub fn standing(&self) -> Option<Slot>
        ensures { result ≡ standing self.now }
    {
        let second_is_later = self.first.number < self.second.number;
        match (self.first.is_open, self.second.is_open) {
            (true, true) if second_is_later => Some(Slot::Second),
            (true, _) => Some(Slot::First),
            (false, true) => Some(Slot::Second),
            (false, false) => None,
        }
    }

    /// The number of the slot that stands, 0 if none does.
    pub fn number(&self) -> u64
        ensures { result ≡ number_where (standing self.now) self.now }
    {
        match self.standing() {
            None => 0,
            Some(Slot::First) => self.first.number,
            Some(Slot::Second) => self.second.number,
        }
    }

    /// The slot that a save writes: the one that doesn't stand, and the first if none does.
    pub fn spare(&self) -> Slot
        ensures { result ≡ spare_where (standing self.now) }
    {
        match self.standing() {
            None => Slot::First,
            Some(slot) => slot.other(),
        }
    }

    // Whether this slot's gate is open.
    pub(crate) fn is_open(&self, slot: Slot) -> bool
        ensures { let head = head_at slot self.now in result ≡ head.is_open }
    {
        match slot {
            Slot::First => self.first.is_open,
            Slot::Second => self.second.is_open,
        }
    }

    // The heads with another one of this slot.
    pub(crate) fn with(self, slot: Slot, head: Head) -> Heads
        ensures { result ≡ with_head slot head self }
    {
        match slot {
            Slot::First => Heads {
                first: head,
                ..self
            },
            Slot::Second => Heads {
                second: head,
                ..self
            },
        }
    }
}
