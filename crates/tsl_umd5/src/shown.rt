//! One display of a packet, and the bytes that it can show as its TEXT.

ghost use Rattle.std.specs.Prelude.{◌≡◌, ◌≤◌, ◌↔◌, IsTrue, not};
ghost use Rattle.std.specs.List.{AllByRecursion, position};
ghost use Rattle.tsl_umd5.specs.Layout.{max_brightness};
ghost use Rattle.tsl_umd5.specs.Packet.{view, control_of, IsDisplay, IsPrintable};
ghost use Rattle.tsl_umd5.specs.Reading.{is_printable};

use crate::lamp::Lamp;
use crate::layout::{FIRST_PRINTABLE, LAST_PRINTABLE, MAX_BRIGHTNESS};

/// What one display shows: a display message of the TSL UMD Protocol V5.0. Control data (bit 15 of CONTROL) and texts
/// in UTF-16 are left out.
#[derive(Clone, Copy, Debug, PartialEq, Eq)]
pub struct Shown<'a> {
    /// INDEX: the display's number on its screen. 65535 is a number like any other here.
    pub index: u16,
    /// The right lamp.
    pub right: Lamp,
    /// The lamp of the text, which lies between the two others.
    pub middle: Lamp,
    /// The left lamp.
    pub left: Lamp,
    /// The brightness, from 0 to `MAX_BRIGHTNESS`.
    pub brightness: u8,
    /// TEXT: bytes of printable ASCII, from 32 to 126.
    pub text: &'a [u8],
}

impl Shown<'_> {
    /// Whether a display message can say this: the brightness has room in its two bits, and TEXT is printable ASCII.
    pub fn fits(&self) -> bool
        ensures { IsTrue result ↔ IsDisplay (view self.now) }
    {
        let Shown {
            brightness,
            text,
            ..
        } = *self;
        brightness <= MAX_BRIGHTNESS && is_text(text)
    }

    // CONTROL: lamps and brightness in the low eight bits.
    pub(crate) fn control(&self) -> u16
        requires { self.now.brightness ≤ max_brightness }
        ensures { result ≡ control_of (view self.now) }
    {
        u16::from(self.right.code())
            + (u16::from(self.middle.code()) << 2)
            + (u16::from(self.left.code()) << 4)
            + (u16::from(self.brightness) << 6)
    }
}

/// Whether a display can show these bytes: each is printable ASCII, which is what this profile has of TEXT.
pub fn is_text(bytes: &[u8]) -> bool
    ensures { IsTrue result ↔ AllByRecursion IsPrintable bytes.now }
{
    first_unprintable(bytes).is_none()
}

// Where the first byte stands that isn't printable ASCII.
pub(crate) fn first_unprintable(text: &[u8]) -> Option<usize>
    ensures { result ≡ position (λ b. not (is_printable b)) text.now }
{
    text.iter()
        .position(|b| !(FIRST_PRINTABLE..=LAST_PRINTABLE).contains(b))
}
