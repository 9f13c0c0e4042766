//! A name of a source, a destination or a device.

ghost use Rattle.std.specs.Prelude.{◌≡◌, ◌≤◌, ◌∷◌, length, decimal};
ghost use Rattle.plant_file.specs.Rows.{longest_name};

use itoa::Buffer;
use std::cmp::Ordering;
use std::hash::{Hash, Hasher};
use std::marker::Model;

/// The most bytes of a name.
pub const MAX_NAME: usize = 12;

/// A name of a source, a destination or a device: at most 12 bytes. A contract sees it as the list of its bytes.
#[derive(Clone, Copy, Debug)]
pub struct Name {
    count: u8,
    // The bytes behind the name are 0.
    bytes: [u8; MAX_NAME],
}

impl Model for Name {
    ghost use Rattle.std.specs.Prelude.{List, ℕ, take, length};
    ghost use Rattle.plant_file.specs.NameInside.{padded, IsPadded};

    ghost Value = { List ℕ };

    ghost view = { λ name. take name.count name.bytes };

    ghost invariant = { λ name. IsPadded name.count name.bytes };

    ghost inverse = { λ name. record { count = length name; bytes = padded name } };
}

impl Name {
    /// The name of these bytes.
    pub fn of(bytes: &[u8]) -> Name
        requires { length bytes.now ≤ longest_name }
        ensures { result ≡ bytes.now }
    {
        let mut padded = [0; MAX_NAME];
        padded[..bytes.len()].copy_from_slice(bytes);
        Name {
            count: bytes.len() as u8,
            bytes: padded,
        }
    }

    /// Its bytes.
    pub fn as_bytes(&self) -> &[u8]
        ensures { result.now ≡ self.now }
    {
        &self.bytes[..self.count as usize]
    }

    /// The name that is a letter and a number, as things without a name in the file are called.
    pub fn numbered(letter: u8, number: u16) -> Name
        ensures { result ≡ letter ∷ decimal number }
    {
        let mut buffer = Buffer::new();
        let digits = buffer.format(number).as_bytes();
        let mut padded = [0; MAX_NAME];
        padded[0] = letter;
        padded[1..=digits.len()].copy_from_slice(digits);
        Name {
            count: digits.len() as u8 + 1,
            bytes: padded,
        }
    }
}

// Names are compared by their bytes.
impl PartialEq for Name {
    ghost use Rattle.std.specs.Prelude.{bytes_eq};
    ghost use Rattle.std.specs.Cmp.{partial_equiv_from_equiv};
    ghost use Rattle.std.specs.Cmp.Lexicographic.{nat_list_eq_equiv};

    ghost eq = { bytes_eq };

    ghost laws = { partial_equiv_from_equiv nat_list_eq_equiv };

    fn eq(&self, other: &Name) -> bool {
        self.as_bytes() == other.as_bytes()
    }
}

impl Eq for Name {
    ghost use Rattle.std.specs.Cmp.Lexicographic.{nat_list_eq_equiv};

    ghost laws = { nat_list_eq_equiv };
}

impl PartialOrd for Name {
    ghost use Rattle.std.specs.Prelude.{Some};
    ghost use Rattle.std.specs.Cmp.{po, unsigned_ties};
    ghost use Rattle.std.specs.Cmp.Lexicographic.{slice_cmp, nat_list_cmp_total, lists_ties};
    ghost use Rattle.std.specs.Ordering.{nat_cmp};

    ghost partial_cmp = { λ name other. Some (slice_cmp nat_cmp name other) };

    ghost laws = { po nat_list_cmp_total (lists_ties nat_cmp unsigned_ties) };

    fn partial_cmp(&self, other: &Name) -> Option<Ordering> {
        Some(self.cmp(other))
    }
}

impl Ord for Name {
    ghost use Rattle.std.specs.Prelude.{refl};
    ghost use Rattle.std.specs.Cmp.{unsigned_ties};
    ghost use Rattle.std.specs.Cmp.Lexicographic.{slice_cmp, nat_list_cmp_total, lists_ties};
    ghost use Rattle.std.specs.Ordering.{nat_cmp};

    ghost cmp = { slice_cmp nat_cmp };

    ghost total = { nat_list_cmp_total };

    ghost matches_partial_cmp = { λ name other. refl };

    ghost matches_eq = { lists_ties nat_cmp unsigned_ties };

    fn cmp(&self, other: &Name) -> Ordering {
        self.as_bytes().cmp(other.as_bytes())
    }
}

impl Hash for Name {
    ghost use Rattle.std.specs.Hash as fed;
    ghost use Rattle.std.specs.Cmp.Rules.{hashing};
    ghost use Rattle.std.proofs.Common.{rules};

    ghost hash_input = { fed.slice fed.u8 };

    ghost respects_eq = { Prim.search (hashing, rules) };

    fn hash<H: Hasher>(&self, state: &mut H) {
        self.as_bytes().hash(state);
    }
}
