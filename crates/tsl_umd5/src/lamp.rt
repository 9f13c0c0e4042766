//! The lamps of a display.

ghost use Rattle.std.specs.Prelude.{◌≡◌, ◌<◌};
ghost use Rattle.tsl_umd5.specs.Lamp.{lamp_code, lamp_of};

/// What a lamp of a display shows. TSL UMD Protocol V5.0 gives each lamp two bits of CONTROL.
#[derive(Clone, Copy, Debug, PartialEq, Eq)]
pub enum Lamp {
    /// Code 0.
    Off,
    /// Code 1.
    Red,
    /// Code 2.
    Green,
    /// Code 3.
    Amber,
}

impl Lamp {
    /// The lamp's two bits, a number from 0 to 3.
    pub fn code(self) -> u8
        ensures { result ≡ lamp_code self }
    {
        match self {
            Lamp::Off => 0,
            Lamp::Red => 1,
            Lamp::Green => 2,
            Lamp::Amber => 3,
        }
    }

    /// The lamp of such a number.
    pub fn from_code(code: u8) -> Lamp
        requires { code < 4 }
        ensures { result ≡ lamp_of code }
    {
        match code {
            0 => Lamp::Off,
            1 => Lamp::Red,
            2 => Lamp::Green,
            _ => Lamp::Amber,
        }
    }
}
