//! What tells the entries of a section apart.

use plant_file::{
    BusEntry, DeviceEntry, DisplayEntry, LevelEntry, Name, PanelEntry, PoolEntry, RemoteEntry,
    RootEntry,
};

// An entry of which a section may not have two with one key.
pub(crate) trait Keyed {
    ghost use Rattle.std.specs.Prelude.{◌≡◌, ℕ, List, bytes_eq};
    ghost use Rattle.std.specs.Ordering.{is_eq};

    type Key: Ord + Copy;

    ghost key_of: { Self → Self.Key };

    // the key as the rules see it: its numbers one behind the other, or its bytes
    ghost numbers_of: { Self → List ℕ };

    fn key(&self) -> Self::Key
        ensures { result ≡ key_of self.now };

    ghost agrees: { (one other : Self) →
        is_eq (Self.Key.cmp (key_of one) (key_of other))
        ≡ bytes_eq (numbers_of one) (numbers_of other) };
}

impl Keyed for Name {
    ghost use Rattle.std.proofs.lemmas.Map.Text.{is_eq-slice_cmp};

    type Key = Name;

    ghost key_of = { λ name. name };

    ghost numbers_of = { λ name. name };

    ghost agrees = { is_eq-slice_cmp };

    fn key(&self) -> Name {
        *self
    }
}

impl Keyed for LevelEntry {
    ghost use Rattle.plant_rules.specs.Rules.{level_key};
    ghost use Rattle.plant_rules.specs.KeysInside.{pair-agrees};

    type Key = (u8, u8);

    ghost key_of = { λ level. (level.matrix, level.level) };

    ghost numbers_of = { level_key };

    ghost agrees = { λ a b. pair-agrees a.matrix a.level b.matrix b.level };

    fn key(&self) -> (u8, u8) {
        (self.matrix(), self.level())
    }
}

impl Keyed for RemoteEntry {
    ghost use Rattle.plant_rules.specs.Rules.{remote_key};
    ghost use Rattle.plant_rules.specs.KeysInside.{triple-agrees};

    type Key = (u8, u8, u16);

    ghost key_of = { λ remote. (remote.matrix, remote.level, remote.source) };

    ghost numbers_of = { remote_key };

    ghost agrees = { λ a b. triple-agrees a.matrix a.level a.source b.matrix b.level b.source };

    fn key(&self) -> (u8, u8, u16) {
        (self.matrix, self.level, self.source)
    }
}

impl Keyed for PoolEntry {
    ghost use Rattle.plant_rules.specs.Rules.{pool_key};
    ghost use Rattle.plant_rules.specs.KeysInside.{triple-agrees};

    type Key = (u8, u8, u8);

    ghost key_of = { λ pool. (pool.from, pool.to, pool.level) };

    ghost numbers_of = { pool_key };

    ghost agrees = { λ a b. triple-agrees a.from a.to a.level b.from b.to b.level };

    fn key(&self) -> (u8, u8, u8) {
        (self.from, self.to, self.level)
    }
}

// A device's output: two devices may not share it.
impl Keyed for DeviceEntry {
    ghost use Rattle.plant_rules.specs.Rules.{output_key};
    ghost use Rattle.plant_rules.specs.KeysInside.{pair-agrees};

    type Key = (u8, u16);

    ghost key_of = { λ device. (device.matrix, device.source) };

    ghost numbers_of = { output_key };

    ghost agrees = { λ a b. pair-agrees a.matrix a.source b.matrix b.source };

    fn key(&self) -> (u8, u16) {
        (self.matrix, self.source)
    }
}

impl Keyed for BusEntry {
    ghost use Rattle.plant_rules.specs.Rules.{bus_key};
    ghost use Rattle.plant_rules.specs.KeysInside.{pair-agrees};

    type Key = (u8, u16);

    ghost key_of = { λ bus. (bus.matrix, bus.destination) };

    ghost numbers_of = { bus_key };

    ghost agrees = { λ a b. pair-agrees a.matrix a.destination b.matrix b.destination };

    fn key(&self) -> (u8, u16) {
        (self.matrix, self.destination)
    }
}

impl Keyed for RootEntry {
    ghost use Rattle.plant_rules.specs.Rules.{root_key};
    ghost use Rattle.plant_rules.specs.KeysInside.{pair-agrees};

    type Key = (u8, u16);

    ghost key_of = { λ root. (root.matrix, root.destination) };

    ghost numbers_of = { root_key };

    ghost agrees = { λ a b. pair-agrees a.matrix a.destination b.matrix b.destination };

    fn key(&self) -> (u8, u16) {
        (self.matrix, self.destination)
    }
}

impl Keyed for DisplayEntry {
    ghost use Rattle.plant_rules.specs.Rules.{display_key};
    ghost use Rattle.plant_rules.specs.KeysInside.{pair-agrees};

    type Key = (u16, u16);

    ghost key_of = { λ display. (display.screen, display.index) };

    ghost numbers_of = { display_key };

    ghost agrees = { λ a b. pair-agrees a.screen a.index b.screen b.index };

    fn key(&self) -> (u16, u16) {
        (self.screen, self.index)
    }
}

impl Keyed for PanelEntry {
    ghost use Rattle.plant_rules.specs.Rules.{panel_key};
    ghost use Rattle.plant_rules.specs.KeysInside.{number-agrees};

    type Key = u16;

    ghost key_of = { λ panel. panel.port };

    ghost numbers_of = { panel_key };

    ghost agrees = { λ a b. number-agrees a.port b.port };

    fn key(&self) -> u16 {
        self.port
    }
}
