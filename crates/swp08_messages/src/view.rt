//! What of a field is wanted: its byte, whether it is in its range, or the least number that is no value of it.

ghost use Rattle.std.specs.Prelude.{◌≡◌};
ghost use Rattle.swp08_messages.specs.ReadingInside.{limit_of};
ghost use Rattle.swp08_messages.specs.ViewsInside.{has_room, written};

use crate::field::Field;
use arrayvec::ArrayVec;

/// What is wanted of each field behind a command, in order: one fewer than the most bytes of a message's DATA.
pub(crate) type Views<V> = ArrayVec<V, 7>;

/// What of a field is wanted. A row is gone through for one of these at a time, so nothing else of it is made.
pub(crate) trait View: Copy + Default {
    ghost use Rattle.swp08_messages.specs.declared.field.Field.{Field};

    ghost view_of: { Field → Self };

    fn of(field: Field) -> Self
        ensures { result ≡ view_of field };
}

// The byte as it is written.
impl View for u8 {
    ghost view_of = { written };

    #[inline(always)]
    fn of(field: Field) -> u8 {
        field.byte()
    }
}

// Whether the values are in their ranges.
impl View for bool {
    ghost view_of = { has_room };

    #[inline(always)]
    fn of(field: Field) -> bool {
        field.has_room()
    }
}

// The least number that is no value of the byte.
impl View for u16 {
    ghost view_of = { limit_of };

    #[inline(always)]
    fn of(field: Field) -> u16 {
        field.limit()
    }
}
