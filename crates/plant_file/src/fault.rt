//! Why a text is no plant, and where in the file. The sections, the keys and the faults are this project's profile.

ghost use Rattle.std.specs.Prelude.{◌≡◌};
ghost use Rattle.plant_file.specs.Spelling.{section_name, field_name};
ghost use Rattle.plant_file.specs.declared.fault.PlantFault.TheVariants.{NoMemory};

use std::alloc::{AllocError, AllocFailed};

/// A section of a plant file, in the order of the checks.
#[derive(Clone, Copy, Debug, PartialEq, Eq)]
pub enum Section {
    /// The keys in front of all sections.
    Top,
    /// How the plant is served.
    Server,
    /// A level of a matrix.
    Level,
    /// A remote source: one that stands for a source of another matrix.
    Remote,
    /// A pool of tie-lines from one matrix to another.
    Pool,
    /// A device whose output depends on its buses.
    Device,
    /// A bus of a device.
    Bus,
    /// A destination that is on air.
    Air,
    /// A destination that is on preview.
    Preview,
    /// A display over a monitor.
    Display,
    /// A control panel.
    Panel,
}

/// A key of a section, or the section itself. Sections share the keys of one name.
#[derive(Clone, Copy, Debug, PartialEq, Eq)]
pub enum Field {
    /// The section as a whole.
    Whole,
    /// The plant's title.
    Title,
    /// The address at which panels are served.
    Listen,
    /// The address to which displays are sent.
    Display,
    /// How long a link may be silent before it is idle, in milliseconds.
    IdleMs,
    /// How many idle reads end a session.
    IdleLimit,
    /// How many turns a session has at most.
    Turns,
    /// How many sessions a panel has at most.
    Sessions,
    /// After how many rounds of the displays all of them are sent anew.
    RefreshEvery,
    /// The brightness of the displays.
    Brightness,
    /// A matrix.
    Matrix,
    /// A level.
    Level,
    /// How many sources a level has.
    Sources,
    /// How many destinations a level has.
    Destinations,
    /// The names of a level's sources.
    SourceNames,
    /// The names of a level's destinations.
    DestinationNames,
    /// A source.
    Source,
    /// The matrix that a remote source or a pool comes from.
    From,
    /// The source that a remote source stands for.
    FromSource,
    /// The matrix that a pool leads to.
    To,
    /// How many tie-lines a pool has.
    Ties,
    /// How many tie-lines of a pool are kept for masters.
    Reserve,
    /// A device's name.
    Name,
    /// A bus's device by its name, or a panel's by its number.
    Device,
    /// A destination.
    Destination,
    /// The matrix of a bus's switch.
    SwitchMatrix,
    /// The level of a bus's switch.
    SwitchLevel,
    /// The destination that is a bus's switch.
    SwitchDestination,
    /// A display's screen.
    Screen,
    /// A display's index on its screen.
    Index,
    /// A panel's TCP port.
    Port,
    /// Whether a panel may lift any protect, and use the ties that are kept for masters.
    Master,
}

/// A key of an entry of a plant file.
#[derive(Clone, Copy, Debug, PartialEq, Eq)]
pub struct Place {
    /// The section.
    pub section: Section,
    /// The entry in its section, counted from 0. It is 0 where a section has one entry alone.
    pub entry: u32,
    /// The key.
    pub field: Field,
}

/// Why there is no plant of a text: the first fault in the order of the checks, or want of memory.
#[derive(Clone, Copy, Debug, PartialEq, Eq)]
pub enum PlantFault {
    /// There was no memory.
    NoMemory,
    /// The text is no TOML document.
    NotToml,
    /// A key that has no default is absent.
    Missing {
        at: Place,
    },
    /// The value is of another type than its key's.
    WrongType {
        at: Place,
    },
    /// A number, a length, a byte of a text or a count is not from `low` to `high`.
    OutOfRange {
        at: Place,
        value: i64,
        low: i64,
        high: i64,
    },
    /// An entry in front of this one is already so, or two names of one level are the same.
    Twice {
        at: Place,
    },
    /// The key names a level, a source, a destination or a device that the plant doesn't have.
    NoSuchThing {
        at: Place,
    },
    /// No pool of tie-lines leads to the remote source.
    NoPool {
        at: Place,
    },
    /// The source is a remote one, where it must be of its own matrix.
    NotLocal {
        at: Place,
    },
}

impl Section {
    /// How a file writes it; the keys in front of all sections have no section in a file.
    pub fn key(self) -> &'static str
        ensures { result.now ≡ section_name self }
    {
        match self {
            Section::Top => "top",
            Section::Server => "server",
            Section::Level => "level",
            Section::Remote => "remote",
            Section::Pool => "pool",
            Section::Device => "device",
            Section::Bus => "bus",
            Section::Air => "air",
            Section::Preview => "preview",
            Section::Display => "display",
            Section::Panel => "panel",
        }
    }
}

impl Field {
    /// How a file writes it.
    pub fn key(self) -> &'static str
        ensures { result.now ≡ field_name self }
    {
        match self {
            Field::Whole => "entries",
            Field::Title => "title",
            Field::Listen => "listen",
            Field::Display => "display",
            Field::IdleMs => "idle_ms",
            Field::IdleLimit => "idle_limit",
            Field::Turns => "turns",
            Field::Sessions => "sessions",
            Field::RefreshEvery => "refresh_every",
            Field::Brightness => "brightness",
            Field::Matrix => "matrix",
            Field::Level => "level",
            Field::Sources => "sources",
            Field::Destinations => "destinations",
            Field::SourceNames => "source_names",
            Field::DestinationNames => "destination_names",
            Field::Source => "source",
            Field::From => "from",
            Field::FromSource => "from_source",
            Field::To => "to",
            Field::Ties => "ties",
            Field::Reserve => "reserve",
            Field::Name => "name",
            Field::Device => "device",
            Field::Destination => "destination",
            Field::SwitchMatrix => "switch_matrix",
            Field::SwitchLevel => "switch_level",
            Field::SwitchDestination => "switch_destination",
            Field::Screen => "screen",
            Field::Index => "index",
            Field::Port => "port",
            Field::Master => "master",
        }
    }
}

impl From<AllocError> for PlantFault {
    ghost from_gives = { λ _ fault. fault ≡ NoMemory };

    fn from(_: AllocError) -> Self {
        PlantFault::NoMemory
    }
}

impl<T: Drop> From<AllocFailed<T>> for PlantFault {
    ghost from_gives = { λ _ fault. fault ≡ NoMemory };

    fn from(_: AllocFailed<T>) -> Self {
        PlantFault::NoMemory
    }
}
