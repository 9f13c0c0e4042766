//! The driver of a level.

ghost use Rattle.std.specs.Prelude.{◌≡◌, ◌≤◌, IfOk, IfSome};
ghost use Rattle.std.specs.FinMap.{get};
ghost use Rattle.swp08_messages.specs.Text.{InRange};
ghost use Rattle.matrix_driver.specs.Levels.{IsLevel, IsOf, short_level, wide_level};
ghost use Rattle.matrix_driver.specs.Driver.{start, happens, wants, hears, answer};
ghost use Rattle.matrix_driver.specs.Driver.{message_of, MayCome};

use crate::crosspoint::Crosspoint;
use crate::event::DriverEvent;
use crate::level::Level;
use crate::progress::Progress;
use std::alloc::{AllocError, Global};
use std::marker::Model;
use swp08_messages::{EXT_PARKED, Message, PARKED};

/// What the controller wants of one level of a frame, and what the frame has said of it. One connect is outstanding at a
/// time. A contract sees plain data: the level, the sources that are wanted and settled, and the outstanding crosspoint.
#[derive(Debug, Drop)]
pub struct Driver {
    level: Level,
    progress: Progress,
    outstanding: Option<Crosspoint>,
}

impl Model for Driver {
    ghost use Rattle.matrix_driver.specs.Driver.{Data, data_code};
    ghost use Rattle.matrix_driver.specs.DriverInside.{IsDriver};

    ghost Value = { Data };

    ghost coded = { data_code };

    ghost view = { λ driver. record {
      level = driver.level;
      progress = driver.progress;
      outstanding = driver.outstanding;
    } };

    ghost invariant = { λ driver. IsDriver (record {
      level = driver.level;
      progress = driver.progress;
      outstanding = driver.outstanding;
    }) };
}

impl Driver {
    /// A driver of a level with 1 to 1,024 destinations and 1,023 sources, by the short commands. The matrix and the level
    /// are 0 to 15.
    pub fn new(
        alloc: Global,
        matrix: u8,
        level: u8,
        destinations: u16,
    ) -> Result<Driver, AllocError>
        requires matrix { matrix ≤ 15 }
        requires level { level ≤ 15 }
        requires some { 1 ≤ destinations }
        requires most { destinations ≤ 1024 }
        ensures { IfOk result
            (λ driver. driver ≡ start (short_level matrix level destinations)) }
    {
        let level = Level {
            matrix,
            number: level,
            destinations: u32::from(destinations),
            sources: PARKED,
        };
        Driver::of(alloc, level)
    }

    /// A driver of a level with 1 to 65,536 destinations and 65,535 sources: by the short commands where they have room for
    /// both numbers, and else by the extended ones. The matrix and the level are 0 to 15.
    pub fn new_wide(
        alloc: Global,
        matrix: u8,
        level: u8,
        destinations: u32,
    ) -> Result<Driver, AllocError>
        requires matrix { matrix ≤ 15 }
        requires level { level ≤ 15 }
        requires some { 1 ≤ destinations }
        requires most { destinations ≤ 65536 }
        ensures { IfOk result
            (λ driver. driver ≡ start (wide_level matrix level destinations)) }
    {
        let level = Level {
            matrix,
            number: level,
            destinations,
            sources: EXT_PARKED,
        };
        Driver::of(alloc, level)
    }

    // A driver of a level of which nothing was wanted yet.
    fn of(alloc: Global, level: Level) -> Result<Driver, AllocError>
        requires { IsLevel level }
        ensures { IfOk result (λ driver. driver ≡ start level) }
    {
        let progress = Progress::new(alloc, level.destinations)?;
        Ok(Driver {
            level,
            progress,
            outstanding: None,
        })
    }

    /// The message to send now, `None` where none is. It takes no memory.
    #[inline(always)]
    #[tactic(auto, using(crate::proofs::DriverLemmas::happens_level))]
    pub fn event(&mut self, event: &DriverEvent) -> Option<Message>
        requires { MayCome self.old.level event.now }
        ensures driver { self.new ≡ (happens self.old event.now).driver }
        ensures answer { result ≡ answer self.old event.now }
        ensures in_range { IfSome result InRange }
        ensures level { self.new.level ≡ self.old.level }
    {
        match *event {
            DriverEvent::Want { dest, source } => self.want(&Crosspoint { dest, source }),
            DriverEvent::Heard(message) => self.hear(&message),
            DriverEvent::Nak | DriverEvent::Timeout => self.outstanding(),
        }
    }

    // A source is wanted of a destination.
    #[inline]
    fn want(&mut self, crosspoint: &Crosspoint) -> Option<Message>
        requires { IsOf self.old.level crosspoint.now }
        ensures driver { self.new ≡ (wants self.old crosspoint.now).driver }
        ensures answer { result ≡ message_of self.old.level (wants self.old crosspoint.now).sent }
        ensures in_range { IfSome result InRange }
    {
        self.progress.note(crosspoint);
        if self.outstanding.is_some() || self.progress.is_settled(crosspoint) {
            return None;
        }
        self.progress.open(crosspoint.dest);
        self.outstanding = Some(*crosspoint);
        Some(self.level.connect(crosspoint))
    }

    // The frame sent a message.
    fn hear(&mut self, message: &Message) -> Option<Message>
        ensures driver { self.new ≡ (hears self.old self.old.outstanding message.now).driver }
        ensures answer { result
            ≡ message_of self.old.level (hears self.old self.old.outstanding message.now).sent }
        ensures in_range { IfSome result InRange }
    {
        let sent = self.outstanding?;
        if !self.level.is_answer(&sent, message) {
            return None;
        }
        self.progress.settle(&sent);
        self.outstanding = self.progress.next();
        let next = self.outstanding?;
        self.progress.open(next.dest);
        Some(self.level.connect(&next))
    }

    /// The source that was wanted last of a destination, `None` where none was: `Some(None)` is a destination to be parked.
    pub fn wanted(&self, dest: u16) -> Option<Option<u16>>
        ensures { result ≡ get self.now.progress.wants dest }
    {
        self.progress.wanted(dest)
    }

    /// The source that the frame has said a destination carries, `None` where the driver doesn't count on one: `Some(None)`
    /// is a destination that is parked.
    pub fn settled(&self, dest: u16) -> Option<Option<u16>>
        ensures { result ≡ get self.now.progress.settled dest }
    {
        self.progress.settled(dest)
    }

    /// The message that was sent and isn't answered yet, `None` where there is none.
    pub fn outstanding(&self) -> Option<Message>
        ensures outstanding { result ≡ message_of self.now.level self.now.outstanding }
        ensures in_range { IfSome result InRange }
    {
        let sent = self.outstanding?;
        Some(self.level.connect(&sent))
    }
}
