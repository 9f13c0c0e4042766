//! The level of a frame that a driver drives.

ghost use Rattle.std.specs.Prelude.{◌≡◌, ◌≤◌};
ghost use Rattle.swp08_messages.specs.Text.{InRange};
ghost use Rattle.matrix_driver.specs.Messages.{point, connect, is_answer, is_about};
ghost use Rattle.matrix_driver.specs.Levels.{IsLevel, IsOf};

use crate::crosspoint::Crosspoint;
use swp08_messages::{Message, Point};

/// A level of a frame.
#[derive(Clone, Copy, Debug, PartialEq, Eq)]
pub(crate) struct Level {
    /// Its matrix, 0 to 15.
    pub(crate) matrix: u8,
    /// Its number in the matrix, 0 to 15.
    pub(crate) number: u8,
    /// How many destinations it has, 1 to 65,536.
    pub(crate) destinations: u32,
    /// Its sources are numbered from 0 and below this.
    pub(crate) sources: u16,
}

impl Level {
    /// The message that asks for a crosspoint: the short command where it has room for both numbers, else the extended one.
    pub(crate) fn connect(&self, crosspoint: &Crosspoint) -> Message
        requires level { IsLevel self.now }
        requires of { IsOf self.now crosspoint.now }
        ensures message { result ≡ connect self.now crosspoint.now }
        ensures in_range { InRange result }
    {
        let at = self.point(crosspoint.dest);
        let source = crosspoint.source;
        if crosspoint.is_short() {
            Message::Connect { at, source }
        } else {
            Message::ExtConnect { at, source }
        }
    }

    /// Whether a message is the frame's answer to the connect of a crosspoint.
    pub(crate) fn is_answer(&self, sent: &Crosspoint, message: &Message) -> bool
        ensures { result ≡ is_answer self.now sent.now message.now }
    {
        match *message {
            Message::Connected { at, source } => {
                sent.is_short() && self.is_about(sent, &at, source)
            }
            Message::ExtConnected { at, source } => {
                !sent.is_short() && self.is_about(sent, &at, source)
            }
            _ => false,
        }
    }

    // Whether a place and a source are those of a crosspoint of the level.
    fn is_about(&self, sent: &Crosspoint, at: &Point, source: Option<u16>) -> bool
        ensures { result ≡ is_about self.now sent.now at.now source }
    {
        at.matrix == self.matrix
            && at.level == self.number
            && at.dest == sent.dest
            && source == sent.source
    }

    // The place of a destination.
    fn point(&self, dest: u16) -> Point
        ensures { result ≡ point self.now dest }
    {
        Point {
            matrix: self.matrix,
            level: self.number,
            dest,
        }
    }
}
