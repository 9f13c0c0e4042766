//! Looking for a name among objects that have one.

ghost use Rattle.std.specs.Prelude.{◌≡◌, ℕ, List, find, IfNone, IfOk, map};
ghost use Rattle.std.specs.Str.{bytes_eq};
ghost use Rattle.ctl_io.specs.Named.{without_first, is_listed};

use crate::Bytes;
use std::alloc::{AllocError, Global};

/// What files have by a name.
pub(crate) trait Named {
    ghost name_of: { Self → List ℕ };

    fn name_of(&self) -> &[u8]
        ensures { result.now ≡ name_of self.now };
}

/// Takes out the first object of this name.
pub(crate) fn take_first<T: Named>(name: &[u8], entries: &mut Vec<T>) -> Option<T>
    ensures found { result ≡
        find (λ entry. bytes_eq (T.name_of entry) name.now) entries.old.items }
    ensures rest { entries.new.items ≡
        without_first (λ entry. bytes_eq (T.name_of entry) name.now) entries.old.items }
    ensures none { IfNone result (entries.new.items ≡ entries.old.items) }
{
    for i in 0..entries.len() {
        if entries[i].name_of() == name {
            return Some(entries.remove(i));
        }
    }
    None
}

/// Whether a name is listed.
pub(crate) fn is_listed(name: &[u8], names: &[Bytes]) -> bool
    ensures { result ≡ is_listed name.now names.now }
{
    names.iter().any(|other| other.as_slice() == name)
}

/// The names of the objects.
pub(crate) fn names_of<T: Named>(alloc: Global, entries: &[T]) -> Result<Vec<Bytes>, AllocError>
    ensures { IfOk result (λ names. names.items ≡ map T.name_of entries.now) }
{
    let mut names = Vec::with_capacity(alloc, entries.len())?;
    for entry in entries {
        names.push(Bytes::of(entry.name_of().to_vec(alloc)?))?;
    }
    Ok(names)
}
