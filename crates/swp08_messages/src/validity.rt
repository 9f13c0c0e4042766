//! Whether a salvo has an entry at a place, and more behind it.

ghost use Rattle.std.specs.Prelude.{◌≡◌};
ghost use Rattle.swp08_messages.specs.Field.{validity_number};
ghost use Rattle.swp08_messages.specs.ReadingInside.{validity_of};

/// Whether a salvo has an entry at the place that was asked for, by this project's profile.
#[derive(Clone, Copy, Debug, PartialEq, Eq)]
pub enum Validity {
    /// It has, and more entries follow.
    More,
    /// It has, and this is the last one.
    Last,
    /// It has none at this place.
    NoEntry,
}

impl Validity {
    /// The byte of the validity.
    pub(crate) fn number(self) -> u8
        ensures { result ≡ validity_number self }
    {
        match self {
            Validity::More => 0,
            Validity::Last => 1,
            Validity::NoEntry => 2,
        }
    }

    /// The validity of a byte, which is then held to its range.
    pub(crate) fn of_number(number: u8) -> Validity
        ensures { result ≡ validity_of number }
    {
        match number {
            0 => Validity::More,
            1 => Validity::Last,
            _ => Validity::NoEntry,
        }
    }
}
