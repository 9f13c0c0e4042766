//! A driver in plain words: tables that are looked through from the start.

use matrix_driver::DriverEvent;
use swp08_messages::{Message, Point};

/// What a table says of a destination, `None` also past its end.
pub fn look(table: &[Option<Option<u16>>; 4], dest: u16) -> Option<Option<u16>> {
    table.get(usize::from(dest)).copied().flatten()
}

// Notes something of a destination.
fn note(table: &mut [Option<Option<u16>>; 4], dest: u16, value: Option<Option<u16>>) {
    if dest < 4 {
        table[usize::from(dest)] = value;
    }
}

/// What is wanted and settled of each destination, and the outstanding crosspoint.
#[derive(Debug, Drop)]
pub struct Plain {
    pub wants: [Option<Option<u16>>; 4],
    pub settled: [Option<Option<u16>>; 4],
    pub outstanding: Option<(u16, Option<u16>)>,
}

impl Plain {
    /// Nothing was wanted yet.
    pub fn new() -> Plain {
        Plain {
            wants: [None; 4],
            settled: [None; 4],
            outstanding: None,
        }
    }

    /// The outstanding connect.
    pub fn message(&self) -> Option<Message> {
        let (dest, source) = self.outstanding?;
        let at = Point {
            matrix: 0,
            level: 0,
            dest,
        };
        Some(Message::Connect { at, source })
    }

    /// What is answered to an event.
    pub fn answer(&mut self, event: &DriverEvent) -> Option<Message> {
        match *event {
            DriverEvent::Want { dest, source } => self.want(dest, source),
            DriverEvent::Heard(Message::Connected { at, source }) => self.hear(at.dest, source),
            DriverEvent::Heard(_) => None,
            DriverEvent::Nak | DriverEvent::Timeout => self.message(),
        }
    }

    fn want(&mut self, dest: u16, source: Option<u16>) -> Option<Message> {
        note(&mut self.wants, dest, Some(source));
        if self.outstanding.is_some() || look(&self.settled, dest) == Some(source) {
            return None;
        }
        self.send(dest, source)
    }

    fn hear(&mut self, dest: u16, source: Option<u16>) -> Option<Message> {
        let (sent, asked) = self.outstanding?;
        if sent != dest || asked != source {
            return None;
        }
        note(&mut self.settled, dest, Some(source));
        self.outstanding = None;
        for dest in 0..4 {
            if let Some(source) = look(&self.wants, dest) {
                if look(&self.settled, dest) != Some(source) {
                    return self.send(dest, source);
                }
            }
        }
        None
    }

    fn send(&mut self, dest: u16, source: Option<u16>) -> Option<Message> {
        note(&mut self.settled, dest, None);
        self.outstanding = Some((dest, source));
        self.message()
    }
}
