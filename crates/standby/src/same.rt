//! Whether two requests are the same.

ghost use Rattle.std.specs.Prelude.{◌≡◌, ◌↔◌, IsTrue};

use plant_core::Request;

/// Whether these are the same request, with the numbers of their items and turns.
pub(crate) fn are_same(one: &Request, other: &Request) -> bool
    ensures { IsTrue result ↔ (one.now ≡ other.now) }
{
    *one == *other
}
