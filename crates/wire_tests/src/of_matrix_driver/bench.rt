//! A driver, a line that loses messages, and a frame, beside the plain model of the driver.

ghost use Rattle.std.specs.Prelude.{◌≡◌, ◌<◌};
ghost use Rattle.matrix_driver.specs.Levels.{short_level};

use super::plain::{Plain, look};
use matrix_driver::{Driver, DriverEvent};
use std::alloc::{AllocError, Global};
use swp08_messages::Message;

/// Numbers that look random, the same ones for the same seed.
#[derive(Debug, Drop)]
pub struct Roll {
    state: u32,
}

impl Roll {
    /// The numbers of a seed.
    pub fn new(seed: u32) -> Roll {
        Roll {
            state: seed.wrapping_mul(2_654_435_761),
        }
    }

    /// The next number, below a limit.
    pub fn below(&mut self, limit: u32) -> u32
        requires { 0 < limit }
        ensures { result < limit }
    {
        self.state = self
            .state
            .wrapping_mul(1_664_525)
            .wrapping_add(1_013_904_223);
        (self.state >> 16) % limit
    }
}

/// A world of 4 destinations.
#[derive(Debug, Drop)]
pub struct Bench {
    driver: Driver,
    plain: Plain,
    forth: Vec<Message>,
    back: Vec<Message>,
    carried: Vec<Option<u16>>,
    ghost level: { driver.level ≡ short_level 0 0 4 },
}

impl Bench {
    /// A new driver, nothing on the way, and a frame that carries something else everywhere.
    pub fn new(alloc: Global) -> Result<Bench, AllocError> {
        let forth = Vec::new(alloc);
        let back = Vec::new(alloc);
        let carried = vec![in alloc; Some(9); 4]?;
        let driver = Driver::new(alloc, 0, 0, 4)?;
        Ok(Bench {
            driver,
            plain: Plain::new(),
            forth,
            back,
            carried,
        })
    }

    /// One step: something is wanted, an answer is refused or overdue, the frame takes or the driver hears a message, and one
    /// may be lost. Whether all is as in the plain model, and the frame has what is settled.
    pub fn step(&mut self, roll: &mut Roll, losses: u32) -> Result<bool, AllocError> {
        let same = match roll.below(8) {
            0 => self.want(roll.below(4), roll.below(5))?,
            1 => self.happens(&DriverEvent::Nak)?,
            2 => self.happens(&DriverEvent::Timeout)?,
            3 | 4 => self.take()?,
            _ => self.hear()?,
        };
        if roll.below(10) < losses {
            self.lose(roll);
        }
        Ok(same && self.is_as_settled() && self.keeps_rounds())
    }

    fn want(&mut self, dest: u32, source: u32) -> Result<bool, AllocError>
        requires dest { dest < 4 }
        requires source { source < 5 }
    {
        let source = if source == 4 {
            None
        } else {
            Some(source as u16)
        };
        let dest = dest as u16;
        self.happens(&DriverEvent::Want { dest, source })
    }

    // Something happens to the driver and to the model, and the answer is put on its way.
    fn happens(&mut self, event: &DriverEvent) -> Result<bool, AllocError> {
        let answer = told(&mut self.driver, event);
        let same = answer == self.plain.answer(event);
        if let Some(message) = answer {
            self.forth.push(message)?;
        }
        Ok(same && self.driver.outstanding() == self.plain.message())
    }

    // The frame takes the first message on the way to it.
    fn take(&mut self) -> Result<bool, AllocError> {
        if self.forth.is_empty() {
            return Ok(true);
        }
        let Message::Connect { at, source } = self.forth.remove(0) else {
            return Ok(false);
        };
        if let Some(place) = self.carried.get_mut(usize::from(at.dest)) {
            *place = source;
        }
        self.back.push(Message::Connected { at, source })?;
        Ok(true)
    }

    // The driver hears the first message on the way back.
    fn hear(&mut self) -> Result<bool, AllocError> {
        if self.back.is_empty() {
            return Ok(true);
        }
        let message = self.back.remove(0);
        self.happens(&DriverEvent::Heard(message))
    }

    // One message is lost, on either way, if there is one.
    fn lose(&mut self, roll: &mut Roll) {
        if roll.below(2) == 0 {
            lose_one(&mut self.forth, roll);
        } else {
            lose_one(&mut self.back, roll);
        }
    }

    // Whether the messages on their ways, those to the driver first, are copies of one connect and its answer, or of one and
    // then of the outstanding one.
    fn keeps_rounds(&self) -> bool {
        let mut last = None;
        let mut is_second = false;
        for message in self.back.iter().chain(self.forth.iter()) {
            let now = crosspoint_of(message);
            if last.is_some() && last != now {
                if is_second {
                    return false;
                }
                is_second = true;
            }
            last = now;
        }
        !is_second || last == self.plain.outstanding
    }

    // Whether the driver says of each destination what the model says, and the frame has what is settled.
    fn is_as_settled(&self) -> bool {
        (0..4u16).all(|dest| {
            let settled = self.driver.settled(dest);
            settled == look(&self.plain.settled, dest)
                && self.driver.wanted(dest) == look(&self.plain.wants, dest)
                && settled.is_none_or(|source| self.carried.get(usize::from(dest)).copied()
                    == Some(source))
        })
    }
}

// The crosspoint that a message on a way is about.
fn crosspoint_of(message: &Message) -> Option<(u16, Option<u16>)> {
    match *message {
        Message::Connect { at, source } | Message::Connected { at, source } => {
            Some((at.dest, source))
        }
        _ => None,
    }
}

// What the driver answers. What its level doesn't have isn't wanted.
fn told(driver: &mut Driver, event: &DriverEvent) -> Option<Message>
    requires { driver.old.level ≡ short_level 0 0 4 }
    ensures { driver.new.level ≡ short_level 0 0 4 }
{
    match *event {
        DriverEvent::Want { dest, source } => {
            if 4 <= dest || source.is_some_and(|number| 4 <= number) {
                return None;
            }
            driver.event(&DriverEvent::Want { dest, source })
        }
        DriverEvent::Heard(message) => driver.event(&DriverEvent::Heard(message)),
        DriverEvent::Nak => driver.event(&DriverEvent::Nak),
        DriverEvent::Timeout => driver.event(&DriverEvent::Timeout),
    }
}

// Takes one message out, if there is one.
fn lose_one(messages: &mut Vec<Message>, roll: &mut Roll) {
    let count = messages.len();
    if 0 < count && count < 1000 {
        messages.remove(roll.below(count as u32) as usize);
    }
}
