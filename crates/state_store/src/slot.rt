//! The two slots of a store.

ghost use Rattle.std.specs.Prelude.{◌≡◌, ◌<◌, ◌^◌};
ghost use Rattle.state_store.specs.Slots.{other, gate_at};

/// A slot of a store. The first stands at the disk's begin, the second behind it.
#[derive(Clone, Copy, Debug, PartialEq, Eq)]
pub enum Slot {
    First,
    Second,
}

impl Slot {
    // The slot beside this one.
    pub(crate) fn other(self) -> Slot
        ensures { result ≡ other self }
    {
        match self {
            Slot::First => Slot::Second,
            Slot::Second => Slot::First,
        }
    }

    // The place of its gate, where entries have so many bytes.
    pub(crate) fn gate(self, entry_len: u64) -> u64
        requires { entry_len < 2 ^ 63 }
        ensures { result ≡ gate_at entry_len self }
    {
        match self {
            Slot::First => 0,
            Slot::Second => 1 + entry_len,
        }
    }
}
