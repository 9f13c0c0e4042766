//! What becomes of a salvo that is to go.

ghost use Rattle.std.specs.Prelude.{◌≡◌};
ghost use Rattle.swp08_messages.specs.Field.{status_number};
ghost use Rattle.swp08_messages.specs.ReadingInside.{status_of};

/// What became of a salvo that was to go or to be cleared, by this project's profile.
#[derive(Clone, Copy, Debug, PartialEq, Eq)]
pub enum GoStatus {
    /// All its entries were made at once, and it is empty now.
    Made,
    /// It was cleared.
    Cleared,
    /// It had no entries.
    Empty,
    /// Nothing was changed: another device protects a destination of it.
    Protected,
    /// Nothing was changed: its entries need more tie-lines than there are.
    NoTie,
}

impl GoStatus {
    /// The byte of the status.
    pub(crate) fn number(self) -> u8
        ensures { result ≡ status_number self }
    {
        match self {
            GoStatus::Made => 0,
            GoStatus::Cleared => 1,
            GoStatus::Empty => 2,
            GoStatus::Protected => 3,
            GoStatus::NoTie => 4,
        }
    }

    /// The status of a byte, which is then held to its range.
    pub(crate) fn of_number(number: u8) -> GoStatus
        ensures { result ≡ status_of number }
    {
        match number {
            0 => GoStatus::Made,
            1 => GoStatus::Cleared,
            2 => GoStatus::Empty,
            3 => GoStatus::Protected,
            _ => GoStatus::NoTie,
        }
    }
}
