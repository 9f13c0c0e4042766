//! A destination's place, and the sources that it may carry.

ghost use Rattle.std.specs.Prelude.{◌↔◌, IsTrue};
ghost use Rattle.swp08_messages.specs.Field.{IsSource, IsExtSource};

/// The number of a source that says 'parked': the destination carries none. It is this project's profile, so the numbers
/// of sources are 0 to 1022, but for the extended commands.
pub const PARKED: u16 = 1023;

/// The same in the extended commands, whose numbers of sources are 0 to 65534.
pub const EXT_PARKED: u16 = 65535;

/// A destination by its place in the plant.
#[derive(Clone, Copy, Debug, PartialEq, Eq)]
pub struct Point {
    /// 0 to 15.
    pub matrix: u8,
    /// 0 to 15.
    pub level: u8,
    /// 0 to 1023, and 0 to 65535 in the extended commands.
    pub dest: u16,
}

/// Whether the source is parked, or below the number that says so.
pub(crate) fn is_source(source: Option<u16>) -> bool
    ensures { IsTrue result ↔ IsSource source }
{
    source.is_none_or(|number| number < PARKED)
}

/// The same in the extended commands.
pub(crate) fn is_ext_source(source: Option<u16>) -> bool
    ensures { IsTrue result ↔ IsExtSource source }
{
    source.is_none_or(|number| number < EXT_PARKED)
}
