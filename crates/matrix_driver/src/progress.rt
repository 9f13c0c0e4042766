//! What is wanted of each destination, and at what it is settled.

ghost use Rattle.std.specs.Prelude.{◌≡◌, ◌<◌, ◌≤◌, true, IfOk};
ghost use Rattle.std.specs.FinMap.{get};
ghost use Rattle.number_tables.specs.Numbers.{number_limit};
ghost use Rattle.matrix_driver.specs.Progress.{blank, has, is_settled, is_due, next};
ghost use Rattle.matrix_driver.specs.Progress.{noted, settled_at, opened};

use crate::crosspoint::Crosspoint;
use number_tables::{NumberMap, NumberSet};
use std::alloc::{AllocError, Global};
use std::marker::Model;

/// What is wanted of each destination, and at what it is settled. The destinations that are wanted and not settled at their
/// wanted source are kept, so that the lowest of them is found at once.
#[derive(Debug, Drop)]
pub(crate) struct Progress {
    wants: NumberMap<Option<u16>>,
    settled: NumberMap<Option<u16>>,
    due: NumberSet,
}

impl Model for Progress {
    ghost use Rattle.matrix_driver.specs.Progress.{Progress, progress_code};
    ghost use Rattle.matrix_driver.specs.ProgressInside.{progress_of, KeepsDue};

    ghost Value = { Progress };

    ghost coded = { progress_code };

    ghost view = { λ progress. progress_of progress.wants progress.settled };

    ghost invariant = { λ progress. KeepsDue progress.wants progress.settled progress.due };
}

impl Progress {
    /// Nothing is wanted of any destination, and there are so many.
    pub(crate) fn new(alloc: Global, room: u32) -> Result<Progress, AllocError>
        requires { room ≤ number_limit }
        ensures { IfOk result (λ progress. progress ≡ blank room) }
    {
        let wants = NumberMap::new(alloc, room as usize)?;
        let settled = NumberMap::new(alloc, room as usize)?;
        let due = NumberSet::new(alloc)?;
        Ok(Progress {
            wants,
            settled,
            due,
        })
    }

    /// What is wanted of a destination, `None` where nothing was.
    pub(crate) fn wanted(&self, dest: u16) -> Option<Option<u16>>
        ensures { result ≡ get self.now.wants dest }
    {
        self.wants.get(u32::from(dest))
    }

    /// At what a destination is settled, `None` where it isn't.
    pub(crate) fn settled(&self, dest: u16) -> Option<Option<u16>>
        ensures { result ≡ get self.now.settled dest }
    {
        self.settled.get(u32::from(dest))
    }

    /// Whether a crosspoint's destination is settled at its source.
    pub(crate) fn is_settled(&self, crosspoint: &Crosspoint) -> bool
        ensures { result ≡ is_settled self.now crosspoint.now }
    {
        has(&self.settled, crosspoint)
    }

    /// The lowest destination that is wanted and not settled at its wanted source, with that source.
    pub(crate) fn next(&self) -> Option<Crosspoint>
        ensures { result ≡ next self.now }
    {
        let number = self.due.lowest()?;
        let source = self.wants.get(number)?;
        Some(Crosspoint {
            dest: number as u16,
            source,
        })
    }

    /// A source is wanted of a destination.
    #[inline]
    pub(crate) fn note(&mut self, crosspoint: &Crosspoint)
        requires { crosspoint.now.dest < self.old.room }
        ensures { self.new ≡ noted self.old crosspoint.now }
    {
        let dest = u32::from(crosspoint.dest);
        self.wants.set(dest, Some(crosspoint.source));
        if has(&self.settled, crosspoint) {
            self.due.remove(dest);
        } else {
            self.due.insert(dest);
        }
    }

    /// A destination that is wanted and not settled at its wanted source is settled at a source.
    pub(crate) fn settle(&mut self, crosspoint: &Crosspoint)
        requires within { crosspoint.now.dest < self.old.room }
        requires due { is_due self.old crosspoint.now.dest ≡ true }
        ensures { self.new ≡ settled_at self.old crosspoint.now }
    {
        let dest = u32::from(crosspoint.dest);
        self.settled.set(dest, Some(crosspoint.source));
        if has(&self.wants, crosspoint) {
            self.due.remove(dest);
        }
    }

    /// A destination that is wanted and not settled at its wanted source isn't settled at another one either.
    pub(crate) fn open(&mut self, dest: u16)
        requires within { dest < self.old.room }
        requires due { is_due self.old dest ≡ true }
        ensures { self.new ≡ opened self.old dest }
    {
        self.settled.set(u32::from(dest), None);
    }
}

// Whether these give a crosspoint's destination its source.
fn has(sources: &NumberMap<Option<u16>>, crosspoint: &Crosspoint) -> bool
    ensures { result ≡ has sources.now.entries crosspoint.now }
{
    sources
        .get(u32::from(crosspoint.dest))
        .is_some_and(|source| source == crosspoint.source)
}
