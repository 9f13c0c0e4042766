//! One byte behind a command: what it says, how it is written, and which bytes it may have.

ghost use Rattle.std.specs.Prelude.{◌≡◌, ◌↔◌, ◌<◌, ◌≤◌, ◌+◌, ◌*◌, ◌/◌, ◌%◌, IsTrue};
ghost use Rattle.swp08_messages.specs.declared.field.Field.TheVariants.{MatrixLevel};
ghost use Rattle.swp08_messages.specs.Field.{byte_of, HasRoom, number_of, ext_number_of, levels};
ghost use Rattle.swp08_messages.specs.ReadingInside.{limit_of};
ghost use Rattle.swp08_messages.specs.ViewsInside.{has_room, written};

use crate::go_status::GoStatus;
use crate::point::{EXT_PARKED, PARKED, is_ext_source, is_source};
use crate::validity::Validity;

// Matrices, and the levels of each, are numbered below this.
const LEVELS: u8 = 16;

// Destinations are numbered below this, but for those of the extended commands.
const DESTS: u16 = 1024;

// The sizes of a name are numbered below this.
const SIZES: u8 = 3;

// Devices are numbered below this.
const DEVICES: u16 = 1024;

// Salvos are numbered below this.
const SALVOS: u8 = 128;

// What may become of a salvo that is to go is numbered below this.
const STATUSES: u16 = 5;

// What may be said of an entry's place is numbered below this.
const VALIDITIES: u16 = 3;

/// The high part of a number is the number DIV this, its low part the number MOD this.
pub(crate) const PART: u16 = 128;

/// The same of a number in two whole bytes.
pub(crate) const WHOLE_PART: u16 = 256;

/// What one byte behind a command says, and of what. A number is sent in two parts: the high parts, DIV 128, of one or
/// two numbers share a byte, the multiplier, and each low part, MOD 128, has a byte. Of a name's number, and of each number
/// of the extended commands, each part, DIV 256 and MOD 256, has a byte of its own.
#[derive(Clone, Copy)]
pub(crate) enum Field {
    /// A matrix in bits 4 to 7, a level in bits 0 to 3.
    MatrixLevel(u8, u8),
    /// A matrix in bits 4 to 7. The bits of a level aren't looked at.
    Matrix(u8),
    /// The multiplier of a destination alone, in bits 4 to 6. No other bit is looked at.
    DestHigh(u16),
    /// The multiplier of a destination, in bits 4 to 6, and a source, in bits 0 to 2. Bits 3 and 7 aren't looked at.
    CrosspointHigh(u16, Option<u16>),
    /// The low part of a destination.
    DestLow(u16),
    /// The low part of a source.
    SourceLow(Option<u16>),
    /// The size of a name: 0, 1 or 2.
    NameSize(u8),
    /// A number DIV 256.
    NumberHigh(u16),
    /// A number MOD 256.
    NumberLow(u16),
    /// The multiplier of a destination, in bits 4 to 6, and a device, in bits 0 to 2. Bits 3 and 7 aren't looked at.
    ProtectHigh(u16, u16),
    /// The low part of a device.
    DeviceLow(u16),
    /// The low part of a device that isn't kept, so its seven bits aren't looked at.
    SpareLow,
    /// Whether a device protects a destination: 0 or 1.
    Details(bool),
    /// The number of a salvo: 0 to 127.
    Salvo(u8),
    /// What a salvo is to do: 0 to go, 1 to be cleared.
    Operation(bool),
    /// What became of a salvo: 0 to 4.
    Status(GoStatus),
    /// The place of an entry in a salvo.
    Index(u8),
    /// Whether a salvo has an entry at a place, and more behind it: 0 to 2.
    EntryValidity(Validity),
    /// A matrix in a byte of its own: 0 to 15.
    ExtMatrix(u8),
    /// A level in a byte of its own: 0 to 15.
    ExtLevel(u8),
    /// A source of an extended command DIV 256.
    ExtSourceHigh(Option<u16>),
    /// A source of an extended command MOD 256.
    ExtSourceLow(Option<u16>),
}

impl Field {
    /// Whether the values are in their ranges.
    #[inline(always)]
    pub(crate) fn has_room(self) -> bool
        ensures test { result ≡ has_room self }
        ensures range { IsTrue result ↔ HasRoom self }
    {
        match self {
            Field::MatrixLevel(matrix, level) => matrix < LEVELS && level < LEVELS,
            Field::Matrix(matrix) => matrix < LEVELS,
            Field::DestHigh(dest) | Field::DestLow(dest) => dest < DESTS,
            Field::CrosspointHigh(dest, source) => dest < DESTS && is_source(source),
            Field::SourceLow(source) => is_source(source),
            Field::NameSize(size) => size < SIZES,
            Field::NumberHigh(_) | Field::NumberLow(_) | Field::SpareLow => true,
            Field::ProtectHigh(dest, device) => dest < DESTS && device < DEVICES,
            Field::DeviceLow(device) => device < DEVICES,
            Field::Salvo(salvo) => salvo < SALVOS,
            Field::Details(_) | Field::Operation(_) | Field::Index(_) => true,
            Field::Status(_) | Field::EntryValidity(_) => true,
            Field::ExtMatrix(matrix) => matrix < LEVELS,
            Field::ExtLevel(level) => level < LEVELS,
            Field::ExtSourceHigh(source) | Field::ExtSourceLow(source) => is_ext_source(source),
        }
    }

    /// The byte as it is written. Of values out of their ranges it is the low eight bits of what they give.
    #[inline(always)]
    pub(crate) fn byte(self) -> u8
        ensures { result ≡ written self }
    {
        (self.wide_byte() % WHOLE_PART) as u8
    }

    // The byte as it is written, or what is above each byte where values are out of their ranges.
    #[inline(always)]
    fn wide_byte(self) -> u16
        ensures { result ≡ byte_of self }
    {
        match self {
            Field::MatrixLevel(matrix, level) => place_number(matrix, level),
            Field::Matrix(matrix) => place_number(matrix, 0),
            Field::DestHigh(dest) => high_part(dest) * 16,
            Field::CrosspointHigh(dest, source) => high_part(dest) * 16 + high_part(number(source)),
            Field::DestLow(dest) => low_part(dest),
            Field::SourceLow(source) => low_part(number(source)),
            Field::NameSize(size) => u16::from(size),
            Field::NumberHigh(number) => number / WHOLE_PART,
            Field::NumberLow(number) => number % WHOLE_PART,
            Field::ProtectHigh(dest, device) => high_part(dest) * 16 + high_part(device),
            Field::DeviceLow(device) => low_part(device),
            Field::SpareLow => 0,
            Field::Details(owned) => u16::from(owned),
            Field::Salvo(salvo) => u16::from(salvo),
            Field::Operation(clear) => u16::from(clear),
            Field::Status(status) => u16::from(status.number()),
            Field::Index(index) => u16::from(index),
            Field::EntryValidity(validity) => u16::from(validity.number()),
            Field::ExtMatrix(matrix) => u16::from(matrix),
            Field::ExtLevel(level) => u16::from(level),
            Field::ExtSourceHigh(source) => ext_number(source) / WHOLE_PART,
            Field::ExtSourceLow(source) => ext_number(source) % WHOLE_PART,
        }
    }

    /// The least number that is no value of the byte: a low part has seven bits, and what is counted ends with its count.
    /// Any other byte has all of its values.
    #[inline(always)]
    pub(crate) fn limit(self) -> u16
        ensures { result ≡ limit_of self }
    {
        match self {
            Field::MatrixLevel(..) | Field::Matrix(_) => 256,
            Field::DestHigh(_) | Field::CrosspointHigh(..) => 256,
            Field::DestLow(_) | Field::SourceLow(_) => PART,
            Field::NameSize(_) => u16::from(SIZES),
            Field::NumberHigh(_) | Field::NumberLow(_) => 256,
            Field::ProtectHigh(..) | Field::Index(_) => 256,
            Field::DeviceLow(_) | Field::SpareLow => PART,
            Field::Salvo(_) => u16::from(SALVOS),
            Field::Details(_) | Field::Operation(_) => 2,
            Field::Status(_) => STATUSES,
            Field::EntryValidity(_) => VALIDITIES,
            Field::ExtMatrix(_) | Field::ExtLevel(_) => u16::from(LEVELS),
            Field::ExtSourceHigh(_) | Field::ExtSourceLow(_) => 256,
        }
    }
}

/// The byte of a matrix and a level.
pub(crate) fn place_byte(matrix: u8, level: u8) -> u8
    requires matrix { matrix < levels }
    requires level { level < levels }
    ensures { result ≡ byte_of (MatrixLevel matrix level) }
{
    place_number(matrix, level) as u8
}

#[inline(always)]
fn place_number(matrix: u8, level: u8) -> u16
    ensures { result ≡ matrix * 16 + level }
{
    u16::from(matrix) * 16 + u16::from(level)
}

/// The number that stands for a source.
#[inline(always)]
pub(crate) fn number(source: Option<u16>) -> u16
    ensures { result ≡ number_of source }
{
    source.unwrap_or(PARKED)
}

/// The same in the extended commands.
#[inline(always)]
fn ext_number(source: Option<u16>) -> u16
    ensures { result ≡ ext_number_of source }
{
    source.unwrap_or(EXT_PARKED)
}

#[inline(always)]
fn high_part(number: u16) -> u16
    ensures part { result ≡ number / 128 }
    ensures most { result ≤ 511 }
{
    number / PART
}

#[inline(always)]
fn low_part(number: u16) -> u16
    ensures { result ≡ number % 128 }
{
    number % PART
}
