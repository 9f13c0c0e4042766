//! What a net is asked to open.

ghost use Rattle.std.specs.Prelude.{◌≡◌, ◌≤◌, length};

use std::marker::Model;

/// The most bytes of an address.
pub const MAX_ADDRESS: usize = 64;

/// An address, of at most 64 bytes. They stand in a row of their own, so no call takes memory.
#[derive(Debug, Drop)]
pub struct Address {
    bytes: [u8; MAX_ADDRESS],
    len: usize,
}

impl Model for Address {
    ghost use Rattle.std.specs.Prelude.{ℕ, ◌≤◌, List, take};

    ghost Value = { List ℕ };

    ghost view = { λ address. take address.len address.bytes };

    ghost invariant = { λ address. address.len ≤ 64 };
}

impl Address {
    /// The address that the text spells.
    pub fn of(text: &str) -> Address
        requires { length text.now ≤ 64 }
        ensures { result ≡ text.now }
    {
        let mut bytes = [0; MAX_ADDRESS];
        let len = text.len();
        bytes[..len].copy_from_slice(text.as_bytes());
        Address { bytes, len }
    }

    // The same address.
    fn copied(&self) -> Address
        ensures { result ≡ self.now }
    {
        Address {
            bytes: self.bytes,
            len: self.len,
        }
    }

    pub fn as_bytes(&self) -> &[u8]
        ensures { result.now ≡ self.now }
    {
        &self.bytes[..self.len]
    }
}

/// What a net was asked to open.
#[derive(Debug, Drop)]
pub enum Opening {
    /// An acceptor for so many sessions of a panel, at an address and a port, of whose links a read waits so many
    /// milliseconds.
    Acceptor {
        panel: u32,
        address: Address,
        port: u16,
        sessions: u32,
        idle_ms: u32,
    },
    /// A port to a display.
    Display {
        address: Address,
    },
}

impl Opening {
    // The same opening.
    pub(crate) fn copied(&self) -> Opening
        ensures { result ≡ self.now }
    {
        match self {
            Opening::Acceptor {
                panel,
                address,
                port,
                sessions,
                idle_ms,
            } => Opening::Acceptor {
                panel: *panel,
                address: address.copied(),
                port: *port,
                sessions: *sessions,
                idle_ms: *idle_ms,
            },
            Opening::Display { address } => Opening::Display {
                address: address.copied(),
            },
        }
    }
}
