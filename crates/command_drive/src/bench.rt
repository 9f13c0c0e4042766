//! A driver, the frame that it drives, and the line between them.

ghost use Rattle.std.specs.Prelude.{◌≡◌, ◌<◌, ◌≤◌, [], false, count_by, IfOk, IsSome, is_some};
ghost use Rattle.std.specs.List.{range_with_len};
ghost use Rattle.std.specs.FinMap.{get};
ghost use Rattle.matrix_driver.specs.Driver.{answer, MayCome};
ghost use Rattle.command_drive.specs.Drive.{Drive, start, comes, takes, turn, want, wanted};
ghost use Rattle.command_drive.specs.Drive.{is_over, bench_level};
ghost use Rattle.command_drive.specs.DriveInside.{Shows, IsReady, Stands, ComesToEnd};
ghost use Rattle.command_drive.specs.DriveInside.{IsConnect, IsRegular, agrees_at, left_of};

use crate::bench_frame::BenchFrame;
use crate::way::Way;
use matrix_driver::{Driver, DriverEvent};
use std::alloc::{AllocError, Global};
use swp08_messages::Message;

// The most messages to the frame, lost ones too.
const MOST_SENT: u32 = 4096;

/// A driver of the bench level, its frame, and the two ways between them, of which every third message to the frame is lost
/// and every fifth back.
#[derive(Drop)]
pub(crate) struct Bench {
    to_frame: Way,
    to_driver: Way,
    driver: Driver,
    frame: BenchFrame,
}

impl Bench {
    // Nothing was wanted yet.
    pub(crate) fn new(alloc: Global) -> Result<Bench, AllocError>
        ensures start { IfOk result (λ bench. Shows bench start) }
        ensures ready { IfOk result IsReady }
    {
        let to_frame = Way::new(alloc, 3)?;
        let to_driver = Way::new(alloc, 5)?;
        let driver = Driver::new(alloc, 0, 0, 32)?;
        let frame = BenchFrame::new(alloc)?;
        Ok(Bench {
            to_frame,
            to_driver,
            driver,
            frame,
        })
    }

    // All wants come, one behind another.
    pub(crate) fn want_all(&mut self, number: u64, wants: u64)
        requires number { number ≤ 4294967295 }
        requires wants { wants ≤ 100000 }
        requires ready { IsReady self.old }
        requires start { Shows self.old start }
        ensures wanted { Shows self.new (wanted number wants) }
        ensures ready { IsReady self.new }
    {
        for place in 0..wants {
            self.want(number, place);
        }
    }

    // Turns until the drive is over.
    pub(crate) fn turn_all(&mut self)
        requires stands { Stands self.old }
        requires ready { IsReady self.old }
        ensures { (first : Drive) → Shows self.old first → IsRegular first
            → ComesToEnd first self.new }
    {
        while !self.is_over() {
            self.turn();
        }
    }

    // How many messages were sent to the frame, lost ones too.
    pub(crate) fn sent(&self) -> u32
        ensures { result ≡ self.now.to_frame.count }
    {
        self.to_frame.count()
    }

    // How many destinations are settled.
    pub(crate) fn settled_count(&self) -> u32
        ensures { result ≡ count_by (λ dest. is_some (get self.now.driver.progress.settled dest))
            (range_with_len 0 32) }
    {
        let mut count = 0;
        for dest in 0..32 {
            if self.driver.settled(dest).is_some() {
                count += 1;
            }
        }
        count
    }

    // At how many of these the frame agrees.
    pub(crate) fn agree_count(&self) -> u32
        ensures { result ≡ count_by (agrees_at self.now) (range_with_len 0 32) }
    {
        let mut count = 0;
        for dest in 0..32 {
            if self.agrees(dest) {
                count += 1;
            }
        }
        count
    }

    // Whether a destination is settled at the source that it has in the frame.
    fn agrees(&self, dest: u16) -> bool
        ensures { result ≡ agrees_at self.now dest }
    {
        match self.driver.settled(dest) {
            Some(Some(source)) => self.frame.source_at(dest) == Some(u32::from(source)),
            Some(None) => self.frame.source_at(dest).is_none(),
            None => false,
        }
    }

    // Whether nothing is outstanding, or the most messages were sent.
    fn is_over(&self) -> bool
        ensures { (drive : Drive) → Shows self.now drive → result ≡ is_over drive }
    {
        self.driver.outstanding().is_none() || self.to_frame.count() >= MOST_SENT
    }

    // A source is wanted of a destination, by the place of the want.
    #[inline]
    fn want(&mut self, number: u64, place: u64)
        requires number { number ≤ 4294967295 }
        requires place { place < 100000 }
        requires few { self.old.to_frame.count ≤ place }
        requires stands { Stands self.old }
        requires ready { IsReady self.old }
        ensures comes { (drive : Drive) → Shows self.old drive
            → Shows self.new (comes drive (want number place)) }
        ensures ready { IsReady self.new }
    {
        let dest = (place % 32) as u16;
        let source = ((number + place) % 32) as u16;
        self.come(&DriverEvent::Want {
            dest,
            source: Some(source),
        });
    }

    // One turn.
    fn turn(&mut self)
        requires going { (drive : Drive) → Shows self.old drive → is_over drive ≡ false }
        requires stands { Stands self.old }
        requires ready { IsReady self.old }
        ensures turn { (drive : Drive) → Shows self.old drive → IsRegular drive
            → Shows self.new (turn drive) }
        ensures less { left_of self.new < left_of self.old }
        ensures ready { IsReady self.new }
    {
        if let Some(message) = self.to_driver.take() {
            self.come(&DriverEvent::Heard(message));
        } else if let Some(message) = self.to_frame.take() {
            self.made(&message);
        } else {
            self.come(&DriverEvent::Timeout);
        }
    }

    // An event comes to the driver, and its answer is put on the way to the frame.
    #[inline(always)]
    fn come(&mut self, event: &DriverEvent)
        requires level { self.old.driver.level ≡ bench_level }
        requires may { MayCome bench_level event.now }
        requires few { self.old.to_frame.count < 100000 }
        requires empty { IsSome (answer self.old.driver event.now)
            → self.old.to_frame.bytes.items ≡ [] }
        requires ready { IsReady self.old }
        ensures comes { (drive : Drive) → Shows self.old drive
            → Shows self.new (comes drive event.now) }
        ensures ready { IsReady self.new }
    {
        if let Some(message) = self.driver.event(event) {
            self.to_frame.put(&message);
        }
    }

    // The frame takes a message, and what it tells is put on the way back.
    fn made(&mut self, message: &Message)
        requires asks { IsConnect message.now }
        requires few { self.old.to_driver.count < 100000 }
        requires empty { self.old.to_driver.bytes.items ≡ [] }
        requires ready { IsReady self.old }
        ensures takes { (drive : Drive) → Shows self.old drive
            → Shows self.new (takes drive message.now drive.world.to_frame) }
        ensures ready { IsReady self.new }
    {
        if let Some(told) = self.frame.take(message) {
            self.to_driver.put(&told);
        }
    }
}
